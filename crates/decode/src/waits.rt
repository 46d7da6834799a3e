// Whom an instruction waits for, in which stage and until when.
ghost use Rattle.std.specs.Prelude.{◌≡◌, false};
ghost use Rattle.machine.specs.Rules.{pre, same};
ghost use Rattle.machine.specs.Named.{stage_named};
ghost use Rattle.machine.proofs.Stages.{stage_at};
ghost use Rattle.machine.proofs.Hazards.{pending, goal, asks_for};
ghost use Rattle.record.specs.Rules.{instruction_of};

use crate::kinds::{fetch_hits, holds_fetches, is_load, is_store, misses_data, reads_in_id};
use machine::Stage;
use record::Fields;

// The stage of a number, from pre 0 on: post for 7 and above.
pub fn stage_of(number: u32) -> Stage
    ensures { stage_named result ≡ stage_at number }
{
    match number {
        0 => Stage::Pre,
        1 => Stage::IF,
        2 => Stage::ID,
        3 => Stage::EX,
        4 => Stage::MEM,
        5 => Stage::ST,
        6 => Stage::WB,
        _ => Stage::Post,
    }
}

// The stage that an instruction has to reach with count 0 before others stop waiting for it; nobody
// waits for one whose stage is pre.
fn goal(f: Fields) -> Stage
    ensures { stage_named result ≡ goal (instruction_of f).kind }
{
    if is_load(f) {
        return Stage::MEM;
    }
    if is_store(f) {
        return Stage::ST;
    }
    if holds_fetches(f) {
        return Stage::EX;
    }
    Stage::Pre
}

// Whether others may wait for an instruction that stands at the stage with the count.
pub fn pending(f: Fields, stage: Stage, count: u32) -> bool
    requires { same (stage_named stage) pre ≡ false }
    ensures { result ≡ pending (instruction_of f).kind (record { stage = stage_named stage; count = count }) }
{
    let to = goal(f);
    (stage < to) | ((stage == to) & (count > 0))
}

// At this stage the first instruction waits for the second, if the second is older and pending. A
// store's value is not asked for in EX: its load, if it is not done, keeps MEM busy
// (`ValueNeverDecides`).
pub fn waits_for(stage: Stage, i: Fields, j: Fields) -> bool
    ensures { result ≡ asks_for (stage_named stage) (instruction_of i) (instruction_of j) }
{
    match stage {
        Stage::Pre => holds_fetches(j) | !fetch_hits(i),
        Stage::ID => is_load(j) & reads_in_id(i, j.target),
        Stage::EX => is_store(j) & misses_data(i),
        _ => false,
    }
}
