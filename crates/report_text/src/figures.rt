// The figures of each trace of a job file, with its deadline.
ghost use Rattle.std.specs.Prelude.{◌≡◌, ◌<◌};
ghost use Rattle.job.specs.Layout.{traces};
ghost use Rattle.timed_file.specs.Refusal.{timed_file_refusal};
ghost use Rattle.report_text.specs.Report.{deadline_at, line_at};

use parts::body_of;
use report_figures::{Line, line_of};

// The deadline of trace t: the only one given, or its own.
fn deadline_at(deadlines: &[u32], t: u32) -> u32
    ensures { result ≡ deadline_at deadlines.now t }
{
    if deadlines.len() == 1 {
        return deadlines[0];
    }
    let i = t as usize;
    if i < deadlines.len() {
        return deadlines[i];
    }
    0
}

pub(crate) fn line_at(file: &[u8], deadlines: &[u32], t: u32, hit_cycles: u32) -> Line
    requires { (timed_file_refusal file.now hit_cycles ≡ 0) × (t < traces file.now) }
    ensures { result ≡ line_at file.now deadlines.now hit_cycles t }
{
    let deadline = deadline_at(deadlines, t);
    line_of(body_of(file, t), t, deadline, hit_cycles)
}
