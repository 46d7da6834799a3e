// The accesses that are counted: the fetches, and the data accesses of loads and stores, that are
// marked miss or unknown. Inner functions, the pass for an accepted body.
ghost use Rattle.std.specs.Prelude.{◌≡◌, ◌≤◌, IfOk};
ghost use Rattle.machine.specs.Bus.{counts_fetch, counts_data, accesses_of, accesses};
ghost use Rattle.record.specs.Rules.{instruction_of};
ghost use Rattle.record.specs.Number.{refusal_in};
ghost use Rattle.record.specs.Body.{body_refusal, trace_of};
ghost use Rattle.bus.specs.Answers.{exceeds, wait_refusal};

use decode::{access_hits, fetch_hits, is_load, is_store};
use record::{Fields, Refusal, count, fields_or_zeros};

// The longest latency that a record holds.
const MAX_LATENCY: u32 = 65535;

fn counts_fetch(f: Fields) -> bool
    ensures { result ≡ counts_fetch (instruction_of f) }
{
    !fetch_hits(f)
}

fn counts_data(f: Fields) -> bool
    ensures { result ≡ counts_data (instruction_of f) }
{
    (is_load(f) | is_store(f)) & !access_hits(f)
}

// How many of its two accesses are counted.
fn accesses_of(f: Fields) -> u32
    ensures { (result ≡ accesses_of (instruction_of f)) × (result ≤ 2) }
{
    counts_fetch(f) as u32 + counts_data(f) as u32
}

// Whether one that is counted is too long with the wait: longer than the wait leaves room for.
fn exceeds(f: Fields, wait: u16) -> bool
    ensures { result ≡ exceeds wait (instruction_of f) }
{
    let most = MAX_LATENCY - wait as u32;
    (counts_fetch(f) & (f.fetch_latency > most)) | (counts_data(f) & (f.data_latency > most))
}

// Of the first access that is too long with the wait, 15.
pub fn count_accesses(body: &[u8], wait: u16) -> Result<u32, Refusal>
    requires { body_refusal body.now ≡ 0 }
    ensures waits { refusal_in result ≡ wait_refusal body.now wait }
    ensures counted { IfOk result (λ n. n ≡ accesses (trace_of body.now)) }
{
    let records = count(body);
    let mut accesses = 0;
    for k in 0..records {
        let f = fields_or_zeros(body, k);
        if exceeds(f, wait) {
            return Err(Refusal::LongWait);
        }
        accesses += accesses_of(f);
    }
    Ok(accesses)
}
