// The public call. A refusal leaves the list as it is.
ghost use Rattle.std.specs.Prelude.{◌≡◌, length, IfOk};
ghost use Rattle.record.specs.Number.{refusal_in};
ghost use Rattle.job.specs.Layout.{traces};
ghost use Rattle.whole_job.specs.Answers.{traces_filled, job_refusal, job_answer, job_times};

use crate::filling::put_times;
use little_endian::half;
use record::Refusal;
use timed_file::check_timed_file;

// The answer as C takes it: the refusal's number and no traces, or 0 and how many traces the file has,
// and so how many places of the list are filled.
#[repr(C)]
#[derive(Clone, Copy, Drop)]
pub struct WholeJob {
    pub refusal: u32,
    pub traces: u32,
}

impl From<Result<u32, Refusal>> for WholeJob {
    ghost from_gives = { λ answer given. given ≡ traces_filled answer };

    fn from(answer: Result<u32, Refusal>) -> WholeJob {
        match answer {
            Ok(traces) => WholeJob { refusal: 0, traces },
            Err(refusal) => WholeJob {
                refusal: refusal.number(),
                traces: 0,
            },
        }
    }
}

// 1 to 8 as Open gives them, then 17, then 16, for a list of so many places; and how many traces there
// are.
fn check_job(file: &[u8], places: usize, hit_cycles: u32) -> Result<u32, Refusal>
    ensures refusal { refusal_in result ≡ job_refusal file.now places hit_cycles }
    ensures traces { IfOk result (λ all. all ≡ traces file.now) }
{
    check_timed_file(file, hit_cycles)?;
    let all = half(file, 0);
    if places < all as usize {
        return Err(Refusal::ShortList);
    }
    Ok(all)
}

// The worst time of each trace, in the first places of the list, in the traces' order; the others keep
// their values. How many traces the file has is the answer.
pub fn worst_times(file: &[u8], times: &mut [u32], hit_cycles: u32) -> Result<u32, Refusal>
    ensures answer { traces_filled result ≡ job_answer file.now (length times.old) hit_cycles }
    ensures list { times.new ≡ job_times file.now times.old hit_cycles }
{
    let traces = check_job(file, times.len(), hit_cycles)?;
    put_times(file, times, traces, hit_cycles);
    Ok(traces)
}
