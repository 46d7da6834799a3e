// Settling: unknown flags become hits or misses as a record is read.
ghost use Rattle.std.specs.Prelude.{◌≡◌};
ghost use Rattle.machine.specs.Instruction.{instruction};
ghost use Rattle.machine.specs.Time.{settle_instruction, settle};
ghost use Rattle.machine.specs.Named.{flag_named};
ghost use Rattle.record.specs.Rules.{instruction_of};
ghost use Rattle.record.specs.Body.{trace_of};

use decode::{choose, flag_number};
use machine::Flag;
use record::{Fields, fields_or_zeros};

fn settle_fields(f: Fields, to: Flag) -> Fields
    ensures { instruction_of result ≡ settle_instruction (flag_named to) (instruction_of f) }
{
    let number = flag_number(to);
    Fields {
        fetch: choose(f.fetch > 1, number, f.fetch),
        access: choose(f.access > 1, number, f.access),
        ..f
    }
}

// Instruction k of a body whose unknown flags become the flag `to`, a hit or a miss.
pub fn settled_at(body: &[u8], to: Flag, k: u32) -> Fields
    ensures { instruction_of result ≡ instruction (settle (flag_named to) (trace_of body.now)) k }
{
    let fields = fields_or_zeros(body, k);
    settle_fields(fields, to)
}
