// Parts of a job file: any, from where it starts to where it ends; and the body of a trace.
#![tactic(auto)]

ghost use Rattle.std.specs.Prelude.{◌≡◌, ◌-◌, ◌<◌, ◌≤◌, length, take, drop};
ghost use Rattle.record.specs.Part.{StartsAt};
ghost use Rattle.job.specs.Layout.{traces, start_at};
ghost use Rattle.job.specs.Open.{file_refusal, open_body, part_of};

use job::Bounds;
use job::table::bounds_of;

// The bytes between the bounds, in their place.
pub fn part(file: &[u8], bounds: Bounds) -> &[u8]
    requires { (bounds.start ≤ bounds.end) × (bounds.end ≤ length file.now) }
    ensures { (result.now ≡ take (bounds.end - bounds.start) (drop bounds.start file.now)) × StartsAt file.entry bounds.start result }
{
    &file[bounds.start..bounds.end]
}

// The bytes from start to end, in their place; or none where they are not all there, and then it is
// left free where the empty part stands. The library's `get` does not say where its part lies.
pub fn cut(file: &[u8], start: usize, end: usize) -> &[u8]
    ensures { (result.now ≡ part_of file.now start end) × (start ≤ end → end ≤ length file.now → StartsAt file.entry start result) }
{
    if end > file.len() || start > end {
        return &file[..0];
    }
    part(file, Bounds { start, end })
}

// The part that Open hands back, for callers that have checked the file; no call of the engine's.
pub fn body_of(file: &[u8], trace: u32) -> &[u8]
    requires { (file_refusal file.now ≡ 0) × (trace < traces file.now) }
    ensures { (result.now ≡ open_body file.now trace) × StartsAt file.entry (start_at file.now trace) result }
{
    part(file, bounds_of(file, trace))
}
