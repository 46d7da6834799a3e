// Run: the state after a limit of cycles from the start, made of what one pass has seated.
ghost use Rattle.std.specs.Prelude.{◌≡◌, Ok};
ghost use Rattle.machine.specs.Named.{flag_named};
ghost use Rattle.machine.specs.Time.{settle};
ghost use Rattle.record.specs.Body.{trace_with, timed_refusal};
ghost use Rattle.running.specs.Run.{ran, ran_for, run_answer};

use acceptance::check_settled;
use machine::{Flag, State};
use record::Refusal;
use under_way::pass;

// `cycles` is how many were run, the smaller of limit and finishing time, and `left` whether all
// have left by then.
#[derive(Clone, Copy, Debug, PartialEq, Eq, Drop)]
pub struct Progress {
    pub state: State,
    pub cycles: u32,
    pub left: bool,
}

// The run of an accepted body that 17 does not decline, its unknown flags made the flag `to`. An inner function: a chart takes
// its rows from it, with unknown flags as misses.
pub fn run_settled(body: &[u8], to: Flag, limit: u32, hit_cycles: u32) -> Progress
    requires { timed_refusal body.now hit_cycles ≡ 0 }
    ensures { ran (Ok result) ≡ ran_for (settle (flag_named to) (trace_with body.now hit_cycles)) limit }
{
    let mut state = State::start();
    let fetched = pass(body, to, limit, &mut state, hit_cycles);
    state.fetched = fetched.count;
    Progress {
        state,
        cycles: limit.min(fetched.finish),
        left: fetched.finish <= limit,
    }
}

// A body that Run accepts has no unknown flags, so either flag will do.
pub fn run(body: &[u8], limit: u32, hit_cycles: u32) -> Result<Progress, Refusal>
    ensures { ran result ≡ run_answer body.now limit hit_cycles }
{
    check_settled(body, hit_cycles)?;
    Ok(run_settled(body, Flag::Hit, limit, hit_cycles))
}
