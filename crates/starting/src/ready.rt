// Which instructions could move in a cycle: those that have count 0, are not held back and may find
// their next slot free.
ghost use Rattle.std.specs.Prelude.{◌≡◌, true, not, ltb, eqb, length};
ghost use Rattle.machine.specs.Test.{◌and◌};
ghost use Rattle.machine.specs.Instruction.{instruction};
ghost use Rattle.machine.specs.Rules.{pre};
ghost use Rattle.machine.specs.Named.{stage_named};
ghost use Rattle.machine.proofs.BySlots.{held_back};
ghost use Rattle.record.specs.Rules.{instruction_of};
ghost use Rattle.record.specs.Body.{trace_of};
ghost use Rattle.moving.specs.Inner.{bits_of};
ghost use Rattle.starting.specs.Inner.{opens, starts};

use crate::hazards::{Waiting, pending_slots};
use machine::{Slot, Stage};
use record::Fields;
use stages::Stages;
use standing::Standing;

fn counted_down(held: Slot) -> bool
    ensures { result ≡ (held.filled and eqb held.count 0) }
{
    held.filled & (held.count == 0)
}

// The slot may be free after the cycle.
fn opens(held: Slot) -> bool
    ensures { result ≡ opens held }
{
    !held.filled | (held.count == 0)
}

impl<'a> Waiting<'a> {
    // Whether the instruction in the slot, with fields i, could move into the one after it: who holds
    // it back is looked up only if its count is 0 and that slot may be free.
    fn released(&self, stage: Stage, held: Slot, after: Slot, i: Fields) -> bool
        ensures { (held.filled ≡ true → instruction_of i ≡ instruction (trace_of self.now.standing.now.body.now) held.index) →
            result ≡ (held.filled and eqb held.count 0 and not (held_back (trace_of self.now.standing.now.body.now) self.now.standing.now.state (stage_named stage) held.index) and opens after) }
    {
        if counted_down(held) & opens(after) {
            return !self.held_back(stage, i, held.index);
        }
        false
    }

    // The same for the next instruction to be fetched, if there is one.
    fn fetchable(&self, n: u32) -> bool
        ensures { result ≡ (ltb self.now.standing.now.state.fetched n and not (held_back (trace_of self.now.standing.now.body.now) self.now.standing.now.state pre self.now.standing.now.state.fetched) and opens self.now.standing.now.state.IF) }
    {
        let s = self.standing.state;
        if (s.fetched < n) & opens(s.IF) {
            return !self.held_back(Stage::Pre, self.standing.fields.pre, s.fetched);
        }
        false
    }
}

// Which instructions of a trace of n move if their next stage will be free: those that have count 0, are
// ready and, up to EX, have a next slot that may be free.
pub fn starts(n: u32, w: &Standing) -> Stages<bool>
    ensures { length (trace_of w.now.body.now) ≡ n → result ≡ bits_of (starts (trace_of w.now.body.now) w.now.state) }
{
    let s = w.state;
    let waiting = Waiting {
        standing: w,
        pending: pending_slots(w),
    };
    Stages {
        pre: waiting.fetchable(n),
        IF: counted_down(s.IF) & opens(s.ID),
        ID: waiting.released(Stage::ID, s.ID, s.EX, w.fields.ID),
        EX: waiting.released(Stage::EX, s.EX, s.MEM, w.fields.EX),
        MEM: counted_down(s.MEM),
        ST: counted_down(s.ST),
        WB: counted_down(s.WB),
    }
}
