// Where the instructions of a trace stand.
ghost use Rattle.std.specs.Prelude.{◌≡◌, ◌≤◌, ◌<◌, ◌*◌, IfOk, IfErr, IfSome, length};

use super::refusal::Refusal;
use super::trace::{Instruction, RECORD};

// The stages in the order in which they run; a store passes ST and any other kind WB.
#[derive(Clone, Copy, Debug, Default, PartialEq, Eq, PartialOrd, Ord)]
pub enum Stage {
    #[default]
    Pre,
    IF,
    ID,
    EX,
    MEM,
    ST,
    WB,
    Post,
}

// How many they are.
pub const STAGES: usize = 8;

impl Stage {
    pub fn index(self) -> usize
        ensures { result < 8 }
    {
        self as usize
    }
}

// A stage and the remaining count there. The default, pre, is where everything starts.
#[derive(Clone, Copy, Default)]
pub struct Place {
    pub stage: Stage,
    pub count: u32,
}

// An instruction, and where it stands.
#[derive(Clone, Copy, Default)]
pub struct Standing {
    pub instruction: Instruction,
    pub place: Place,
}

// A stage's occupant: its number in the trace, and its count.
#[derive(Clone, Copy)]
pub struct Slot {
    pub index: usize,
    pub count: u32,
}

// The instructions of a trace of at most N, from the oldest on.
#[derive(Clone, Copy)]
pub struct Core<const N: usize> {
    all: [Standing; N],
    size: usize,
    ghost fits: { size ≤ N },
}

impl<const N: usize> Core<N> {
    // Without an instruction.
    pub(crate) fn empty() -> Core<N>
        ensures { result.size ≡ 0 }
    {
        Core {
            all: [Standing::default(); N],
            size: 0,
        }
    }

    // A trace in place of the one before. "The starting state has everything in pre." Declined where N are too few, or a
    // record breaks its rules; then there is no instruction.
    pub(crate) fn read(&mut self, body: &[u8]) -> Result<(), Refusal>
        ensures read { IfOk result (λ _. length body.now ≡ 10 * self.new.size) }
        ensures declined { IfErr result (λ _. self.new.size ≡ 0) }
    {
        self.size = 0;
        let (records, rest) = body.as_chunks::<RECORD>();
        let size = records.len();
        if size > N || !rest.is_empty() {
            return Err(Refusal::BodyLength);
        }
        for (s, record) in self.all.iter_mut().zip(records) {
            *s = Standing {
                instruction: Instruction::read(record)?,
                place: Place::default(),
            };
        }
        self.size = size;
        Ok(())
    }

    // The starting state of a trace, declined as in `read`.
    pub fn of(body: &[u8]) -> Result<Core<N>, Refusal> {
        let mut core = Core::empty();
        core.read(body)?;
        Ok(core)
    }

    pub fn row(&self) -> &[Standing]
        ensures { length result.now ≤ N }
    {
        &self.all[..self.size]
    }

    pub fn row_mut(&mut self) -> &mut [Standing] {
        let size = self.size;
        let all = &mut self.all;
        &mut all[..size]
    }

    // Everything in pre again.
    pub fn start(&mut self) {
        for s in self.row_mut() {
            s.place = Place::default();
        }
    }

    // Every instruction has left, "that is, is in post".
    pub fn all_left(&self) -> bool {
        self.row().iter().all(|s| s.place.stage == Stage::Post)
    }

    // The oldest instruction that stands in a stage from IF to WB.
    pub fn in_stage(&self, stage: Stage) -> Option<Slot>
        ensures { IfSome result (λ s. s.index < N) }
    {
        let row = self.row();
        let index = row.iter().position(|s| s.place.stage == stage)?;
        let count = row.get(index)?.place.count;
        Some(Slot { index, count })
    }

    // The fetched count f: how many instructions are past pre.
    pub fn fetched(&self) -> usize
        ensures { result ≤ N }
    {
        let past_pre = |s: &&Standing| s.place.stage != Stage::Pre;
        self.row().iter().filter(past_pre).count()
    }
}
