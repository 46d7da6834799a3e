// When an instruction is ready, and what the rules ask for that of the instructions before it in
// the trace: "older" means earlier in the trace.
use super::places::{Place, Stage, Standing};
use super::sets::Set;
use super::trace::{Flag, Instruction, Kind};

// Whether some older one is in pre, some older branch is short of (EX, 0), some older jump short of
// (EX, 0), some older load short of (MEM, 0), some older store short of (ST, 0); and the target
// registers of those loads, which alone carry a dependence.
#[derive(Clone, Copy, Default)]
pub struct Older {
    in_pre: bool,
    branch: bool,
    jump: bool,
    load: bool,
    store: bool,
    targets: Set,
}

// "Further means a later stage, or the same stage with a smaller count. Short of (s, c) means that
// (s, c), a stage and a count, is further." Here c is 0.
fn short_of(at: Place, s: Stage) -> bool {
    at.stage < s || at.stage == s && at.count > 0
}

impl Older {
    // One more of the older ones.
    pub fn add(&mut self, s: Standing) {
        let at = s.place;
        self.in_pre |= at.stage == Stage::Pre;
        match s.instruction.kind {
            Kind::Plain => {}
            Kind::Branch => self.branch |= short_of(at, Stage::EX),
            Kind::Jump => self.jump |= short_of(at, Stage::EX),
            Kind::Store => self.store |= short_of(at, Stage::ST),
            Kind::Load => {
                if short_of(at, Stage::MEM) {
                    self.load = true;
                    self.targets.insert(s.instruction.target);
                }
            }
        }
    }

    // Whether it is ready. "Elsewhere it is always ready."
    pub fn lets(&self, s: Standing) -> bool {
        match s.place.stage {
            Stage::Pre => self.lets_fetch(s.instruction),
            Stage::ID => self.lets_decode(s.instruction),
            Stage::EX => self.lets_access(s.instruction) && self.lets_store(s.instruction),
            _ => true,
        }
    }

    // "In pre it is ready when no older one is in pre, no older branch is short of (EX, 0), and its
    // fetch hits or no older load is short of (MEM, 0) and no older store short of (ST, 0)." A jump "holds
    // back later fetches as a branch does, until it stands at (EX, 0)" (document 02, F-6).
    fn lets_fetch(&self, x: Instruction) -> bool {
        let held = self.in_pre || self.branch || self.jump;
        let accessed = self.load || self.store;
        !held && (x.fetch == Flag::Hit || !accessed)
    }

    // A register other than 0 is the target of an older load short of (MEM, 0).
    fn awaits(&self, register: u8) -> bool {
        register != 0 && self.targets.has(register)
    }

    // "In ID it is ready when no older load short of (MEM, 0) has as target one of its sources other
    // than register 0." But "a store waits in ID for its first source only" (document 02, F-3).
    fn lets_decode(&self, x: Instruction) -> bool {
        !self.awaits(x.first) && (x.kind == Kind::Store || !self.awaits(x.second))
    }

    // "In EX a load or store with a data miss is ready when no older store is short of (ST, 0)."
    fn lets_access(&self, x: Instruction) -> bool {
        !x.kind.has_data() || x.data != Flag::Miss || !self.store
    }

    // "A store waits in ID for its first source only, and in EX for its second" (document 02, F-3),
    // which "is the value to be stored, fetched only on the way into MEM". In EX both sentences count: the one on a
    // data miss and the one on a store's value.
    fn lets_store(&self, x: Instruction) -> bool {
        x.kind != Kind::Store || !self.awaits(x.second)
    }
}
