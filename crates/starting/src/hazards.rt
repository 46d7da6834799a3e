// Which older instructions hold another back in its stage.
ghost use Rattle.std.specs.Prelude.{◌≡◌, false, ltb};
ghost use Rattle.machine.specs.Test.{◌and◌};
ghost use Rattle.machine.specs.Instruction.{instruction};
ghost use Rattle.machine.specs.Rules.{pre, same};
ghost use Rattle.machine.specs.Named.{stage_named};
ghost use Rattle.machine.proofs.BySlots.{held_back};
ghost use Rattle.machine.proofs.Hazards.{pending, asks_for};
ghost use Rattle.record.specs.Rules.{instruction_of};
ghost use Rattle.record.specs.Body.{trace_of};
ghost use Rattle.moving.specs.Inner.{bits_of};
ghost use Rattle.starting.specs.Inner.{pending_in};

use decode::{pending, waits_for};
use machine::{Slot, Stage};
use record::Fields;
use stages::Stages;
use standing::Standing;

// The slot at the stage holds a pending instruction.
fn slot_pending(stage: Stage, held: Slot, f: Fields) -> bool
    requires { same (stage_named stage) pre ≡ false }
    ensures { result ≡ (held.filled and pending (instruction_of f).kind (record { stage = stage_named stage; count = held.count })) }
{
    held.filled & pending(f, stage, held.count)
}

// The instruction at index `other`, with fields j, is pending and holds back instruction `index`,
// with fields i, at this stage.
fn holds_back(stage: Stage, i: Fields, index: u32, pending: bool, other: u32, j: Fields) -> bool
    ensures { result ≡ (pending and ltb other index and asks_for (stage_named stage) (instruction_of i) (instruction_of j)) }
{
    pending & (other < index) & waits_for(stage, i, j)
}

// What stands in the pipeline, and which slots hold a pending instruction, found once for all that may
// wait in this cycle.
#[derive(Clone, Copy, Drop)]
pub(crate) struct Waiting<'a> {
    pub(crate) standing: &'a Standing<'a>,
    pub(crate) pending: Stages<bool>,
    pub ghost found: { pending ≡ bits_of (pending_in (trace_of standing.now.body.now) standing.now.state) },
}

pub(crate) fn pending_slots(w: &Standing) -> Stages<bool>
    ensures { result ≡ bits_of (pending_in (trace_of w.now.body.now) w.now.state) }
{
    let s = w.state;
    let f = w.fields;
    Stages {
        pre: false,
        IF: slot_pending(Stage::IF, s.IF, f.IF),
        ID: slot_pending(Stage::ID, s.ID, f.ID),
        EX: slot_pending(Stage::EX, s.EX, f.EX),
        MEM: slot_pending(Stage::MEM, s.MEM, f.MEM),
        ST: slot_pending(Stage::ST, s.ST, f.ST),
        WB: slot_pending(Stage::WB, s.WB, f.WB),
    }
}

impl<'a> Waiting<'a> {
    // Instruction `index`, with fields i, is held back at this stage.
    pub(crate) fn held_back(&self, stage: Stage, i: Fields, index: u32) -> bool
        ensures { instruction_of i ≡ instruction (trace_of self.now.standing.now.body.now) index →
            result ≡ held_back (trace_of self.now.standing.now.body.now) self.now.standing.now.state (stage_named stage) index }
    {
        let p = self.pending;
        let s = self.standing.state;
        let f = self.standing.fields;
        holds_back(stage, i, index, p.IF, s.IF.index, f.IF)
            | holds_back(stage, i, index, p.ID, s.ID.index, f.ID)
            | holds_back(stage, i, index, p.EX, s.EX.index, f.EX)
            | holds_back(stage, i, index, p.MEM, s.MEM.index, f.MEM)
            | holds_back(stage, i, index, p.ST, s.ST.index, f.ST)
            | holds_back(stage, i, index, p.WB, s.WB.index, f.WB)
    }
}
