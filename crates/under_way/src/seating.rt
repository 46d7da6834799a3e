// One pass over a body places instructions at a limit from their times, and no cycle is simulated: it
// skips those that have left by then, seats the few that are under way, and ends with the first that is
// not fetched by then.
ghost use Rattle.std.specs.Prelude.{◌≡◌};
ghost use Rattle.machine.specs.State.{start};
ghost use Rattle.machine.specs.Named.{flag_named};
ghost use Rattle.machine.specs.Time.{settle};
ghost use Rattle.record.specs.Body.{trace_with, timed_refusal};
ghost use Rattle.under_way.specs.Inner.{Stopped};

use machine::{Flag, State};
use passing::skip_left;
use schedule::{all_left_by, no_window};
use seats::seat;
use settling::settled_at;

// How many instructions are fetched by a limit, and the finishing time, or, where not all are fetched by
// then, some time after the limit.
#[derive(Clone, Copy, Drop)]
pub struct Fetched {
    pub count: u32,
    pub finish: u32,
}

// The pass over an accepted body whose unknown flags become the flag `to`: it seats the instructions
// that are under way at the limit, and ends with the first that is not fetched by then.
pub fn pass(body: &[u8], to: Flag, limit: u32, state: &mut State, hit_cycles: u32) -> Fetched
    requires { (timed_refusal body.now hit_cycles ≡ 0) × (state.old ≡ start) }
    ensures { Stopped (settle (flag_named to) (trace_with body.now hit_cycles)) limit result state.new }
{
    let mut next = skip_left(body, to, limit, 0, no_window(), hit_cycles);
    while let Some(times) = next.times {
        if limit < times.IF {
            break;
        }
        let f = settled_at(body, to, next.k);
        seat(state, f, times, limit, next.k, hit_cycles);
        next = skip_left(body, to, limit, next.k + 1, next.window, hit_cycles);
    }
    Fetched {
        count: next.k,
        finish: all_left_by(next.window),
    }
}
