// The pass: record after record is timed, unknown flags settled on the way.
ghost use Rattle.std.specs.Prelude.{◌≡◌, ◌+◌, ◌<◌, ◌≤◌};
ghost use Rattle.machine.specs.Named.{flag_named};
ghost use Rattle.machine.specs.Time.{finish, settle};
ghost use Rattle.machine.proofs.Window.{window_before, times_at};
ghost use Rattle.record.specs.Body.{records, trace_with, timed_refusal};
ghost use Rattle.entering.specs.Inner.{window_of};
ghost use Rattle.schedule.specs.Inner.{times_of};
ghost use Rattle.passing.specs.Inner.{Skipped};

use entering::Window;
use machine::Flag;
use record::count;
use schedule::{Times, all_left_by, no_window, slide, times_from};
use settling::settled_at;

// When an instruction enters each stage, and the window after it.
#[derive(Clone, Copy, Drop)]
struct Timed {
    pub times: Times,
    pub window: Window,
}

// Instruction k at which a pass has stopped, with its times and the window after it; or, past the last
// instruction, no times and the window after all.
#[derive(Clone, Copy, Drop)]
pub struct Reached {
    pub k: u32,
    pub times: Option<Times>,
    pub window: Window,
}

// No time is later.
const NEVER: u32 = u32::MAX;

// Record k, timed: its fields with unknown flags as the flag `to`, its times by the window before it,
// and the window after it.
fn timed_at(body: &[u8], to: Flag, k: u32, w: Window, hit_cycles: u32) -> Timed
    requires { (timed_refusal body.now hit_cycles ≡ 0) × (k < records body.now) × (window_of w ≡ window_before (settle (flag_named to) (trace_with body.now hit_cycles)) k) }
    ensures { (times_of result.times ≡ times_at (settle (flag_named to) (trace_with body.now hit_cycles)) k) × (window_of result.window ≡ window_before (settle (flag_named to) (trace_with body.now hit_cycles)) (k + 1)) }
{
    let f = settled_at(body, to, k);
    let times = times_from(w, f, hit_cycles);
    Timed {
        times,
        window: slide(w, f, times),
    }
}

// From instruction `from` on, which has the window w before it, the first that has not left by the limit.
pub fn skip_left(
    body: &[u8],
    to: Flag,
    limit: u32,
    from: u32,
    w: Window,
    hit_cycles: u32,
) -> Reached
    requires { (timed_refusal body.now hit_cycles ≡ 0) × (from ≤ records body.now) × (window_of w ≡ window_before (settle (flag_named to) (trace_with body.now hit_cycles)) from) }
    ensures { Skipped (settle (flag_named to) (trace_with body.now hit_cycles)) limit from result }
{
    let records = count(body);
    let mut window = w;
    for k in from..records {
        let timed = timed_at(body, to, k, window, hit_cycles);
        let times = timed.times;
        window = timed.window;
        if limit < times.post {
            return Reached {
                k,
                times: Some(times),
                window,
            };
        }
    }
    Reached {
        k: records,
        times: None,
        window,
    }
}

// The finishing time where every unknown flag becomes the flag `to`.
pub fn finish_settled(body: &[u8], to: Flag, hit_cycles: u32) -> u32
    requires { timed_refusal body.now hit_cycles ≡ 0 }
    ensures { result ≡ finish (settle (flag_named to) (trace_with body.now hit_cycles)) }
{
    let end = skip_left(body, to, NEVER, 0, no_window(), hit_cycles);
    all_left_by(end.window)
}
