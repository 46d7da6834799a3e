// The instructions in the pipeline: their fields, read once in a cycle.
ghost use Rattle.std.specs.Prelude.{◌≡◌, true};
ghost use Rattle.machine.specs.Instruction.{instruction};
ghost use Rattle.record.specs.Rules.{instruction_of};
ghost use Rattle.record.specs.Body.{trace_of};
ghost use Rattle.standing.specs.Inner.{Reads};

use machine::{Slot, State};
use record::{Fields, fields_or_zeros, no_fields};
use stages::Stages;

// A state of a body's pipeline, with the fields of each slot's instruction, and of the next to be
// fetched.
#[derive(Clone, Copy, Drop)]
pub struct Standing<'a> {
    pub body: &'a [u8],
    pub state: State,
    pub fields: Stages<Fields>,
    pub ghost reads: { Reads (trace_of body.now) state fields },
}

fn fields(body: &[u8], k: u32) -> Fields
    ensures { instruction_of result ≡ instruction (trace_of body.now) k }
{
    fields_or_zeros(body, k)
}

// The fields of the slot's instruction; for an empty slot no record is read, and nothing is
// promised of the fields.
fn held_fields(body: &[u8], held: Slot) -> Fields
    ensures { held.filled ≡ true → instruction_of result ≡ instruction (trace_of body.now) held.index }
{
    if held.filled {
        return fields(body, held.index);
    }
    no_fields()
}

pub fn read_stages<'a>(body: &'a [u8], state: State) -> Standing<'a>
    ensures { (result.body.now ≡ body.now) × (result.state ≡ state) }
{
    Standing {
        body,
        state,
        fields: Stages {
            pre: fields(body, state.fetched),
            IF: held_fields(body, state.IF),
            ID: held_fields(body, state.ID),
            EX: held_fields(body, state.EX),
            MEM: fields(body, state.MEM.index),
            ST: held_fields(body, state.ST),
            WB: held_fields(body, state.WB),
        },
    }
}
