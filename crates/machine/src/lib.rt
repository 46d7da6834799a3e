// The pipeline state: how many instructions have been fetched, and what each of the six stages
// between pre and post holds. The starting state and the limits belong to it.
#![tactic(auto)]

ghost use Rattle.std.specs.Prelude.{◌≡◌, true};
ghost use Rattle.machine.specs.State.{start};

pub mod stage;

pub use stage::Stage;

// The kinds of instruction; a branch is a conditional one, and a jump may write a register.
#[derive(Clone, Copy, Debug, PartialEq, Eq, Hash, Drop)]
pub enum Kind {
    Plain,
    Load,
    Store,
    Branch,
    Jump,
}

// Whether a fetch or a data access hits; one that is not known may do either.
#[derive(Clone, Copy, Debug, PartialEq, Eq, Hash, Drop)]
pub enum Flag {
    Hit,
    Miss,
    Unknown,
}

// A stage's slot: empty (index and count 0), or an instruction's index with its remaining count. `filled`
// stands beside them, in place of an Option, since C has this struct (`sic_slot`).
#[repr(C)]
#[derive(Clone, Copy, Debug, PartialEq, Eq, Hash, Drop)]
pub struct Slot {
    pub filled: bool,
    pub index: u32,
    pub count: u32,
}

impl Slot {
    pub const EMPTY: Slot = Slot {
        filled: false,
        index: 0,
        count: 0,
    };

    pub fn holding(index: u32, count: u32) -> Slot
        ensures { result ≡ record { filled = true; index = index; count = count } }
    {
        Slot {
            filled: true,
            index,
            count,
        }
    }
}

// Instructions below `fetched` have left pre; those of them that are in no slot are in post.
#[repr(C)]
#[derive(Clone, Copy, Debug, PartialEq, Eq, Hash, Drop)]
pub struct State {
    pub fetched: u32,
    pub IF: Slot,
    pub ID: Slot,
    pub EX: Slot,
    pub MEM: Slot,
    pub ST: Slot,
    pub WB: Slot,
}

impl State {
    // The most instructions that a trace holds.
    pub const MAX_INSTRUCTIONS: u32 = 4096;
    // The most bytes that a job file holds.
    pub const MAX_FILE_BYTES: u32 = 65536;

    // The starting state: everything in pre.
    pub fn start() -> State
        ensures { result ≡ start }
    {
        State {
            fetched: 0,
            IF: Slot::EMPTY,
            ID: Slot::EMPTY,
            EX: Slot::EMPTY,
            MEM: Slot::EMPTY,
            ST: Slot::EMPTY,
            WB: Slot::EMPTY,
        }
    }
}
