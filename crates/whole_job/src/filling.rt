// The worst times of a checked file's traces, put into a list. Inner functions.
ghost use Rattle.std.specs.Prelude.{◌≡◌, ◌++◌, ◌<◌, ◌≤◌, length, drop, set};
ghost use Rattle.record.specs.Body.{firsts};
ghost use Rattle.job.specs.Layout.{traces};
ghost use Rattle.timed_file.specs.Refusal.{timed_file_refusal};
ghost use Rattle.whole_job.specs.Answers.{timed_alone};

use machine::Flag;
use parts::body_of;
use passing::finish_settled;

// One pass over the body: the worst time is the finishing time with every unknown flag a miss.
fn worst_time_at(file: &[u8], t: u32, hit_cycles: u32) -> u32
    requires { (timed_file_refusal file.now hit_cycles ≡ 0) × (t < traces file.now) }
    ensures { result ≡ timed_alone file.now hit_cycles t }
{
    finish_settled(body_of(file, t), Flag::Miss, hit_cycles)
}

fn put_time(times: &mut [u32], t: u32, time: u32)
    requires { t < length times.old }
    ensures { times.new ≡ set times.old t time }
{
    times[t as usize] = time;
}

// The first `all` places become the times of the file's traces.
pub fn put_times(file: &[u8], times: &mut [u32], all: u32, hit_cycles: u32)
    requires { (timed_file_refusal file.now hit_cycles ≡ 0) × (all ≡ traces file.now) × (all ≤ length times.old) }
    ensures { times.new ≡ firsts (timed_alone file.now hit_cycles) all ++ drop all times.old }
{
    for t in 0..all {
        put_time(times, t, worst_time_at(file, t, hit_cycles));
    }
}
