// The refusals of a file whose traces are to be timed.
ghost use Rattle.std.specs.Prelude.{◌≡◌};
ghost use Rattle.record.specs.Number.{refusal_in};
ghost use Rattle.job.specs.Open.{file_refusal};
ghost use Rattle.timed_file.specs.Refusal.{file_hit_refusal, timed_file_refusal};

use acceptance::{MAX_HIT_CYCLES, check_hits};
use job::check_file;
use little_endian::half;
use parts::body_of;
use record::Refusal;

// 17 only, for a checked file: too many cycles, even without traces, else as for the body of each.
fn check_file_hits(file: &[u8], hit_cycles: u32) -> Result<(), Refusal>
    requires { file_refusal file.now ≡ 0 }
    ensures { refusal_in result ≡ file_hit_refusal file.now hit_cycles }
{
    if hit_cycles > MAX_HIT_CYCLES {
        return Err(Refusal::LongHit);
    }
    for t in 0..half(file, 0) {
        check_hits(body_of(file, t), hit_cycles)?;
    }
    Ok(())
}

pub fn check_timed_file(file: &[u8], hit_cycles: u32) -> Result<(), Refusal>
    ensures { refusal_in result ≡ timed_file_refusal file.now hit_cycles }
{
    check_file(file)?;
    check_file_hits(file, hit_cycles)
}
