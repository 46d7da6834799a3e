// Open without its refusal; no call of the engine's.
ghost use Rattle.std.specs.Prelude.{◌≡◌};
ghost use Rattle.record.specs.Part.{StartsAt};
ghost use Rattle.job.specs.Layout.{start_at};
ghost use Rattle.job.specs.Open.{open_refusal, open_body};

use crate::open;

// The part that Open hands back, or an empty one where it refuses, whose place is left free.
pub fn open_body<'a>(file: &'a [u8], trace: u32) -> &'a [u8]
    ensures { (result.now ≡ open_body file.now trace) × (open_refusal file.now trace ≡ 0 → StartsAt file.entry (start_at file.now trace) result) }
{
    open(file, trace).unwrap_or(&[])
}
