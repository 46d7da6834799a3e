// A record written into a lent body, field by field as layout.rt reads it. An inner function: the
// caller knows that record k is there and that each field fits.
ghost use Rattle.std.specs.Prelude.{◌≡◌, ◌<◌};
ghost use Rattle.record.specs.Layout.{Fits, record_bytes};
ghost use Rattle.record.specs.Body.{records, with_record};

use crate::layout::{Fields, RECORD_SIZE};

fn record_bytes(f: Fields) -> [u8; RECORD_SIZE]
    requires { Fits f }
    ensures { result ≡ record_bytes f }
{
    [
        f.kind as u8,
        (f.fetch + 4 * f.access) as u8,
        f.source1 as u8,
        f.source2 as u8,
        f.target as u8,
        f.execution as u8,
        (f.fetch_latency % 256) as u8,
        (f.fetch_latency / 256) as u8,
        (f.data_latency % 256) as u8,
        (f.data_latency / 256) as u8,
    ]
}

// Writes these fields as record k; the body's other records stay. Whether they keep the rules is not
// asked.
pub fn put_record(body: &mut [u8], k: u32, f: Fields)
    requires { (k < records body.old) × Fits f }
    ensures { body.new ≡ with_record body.old k f }
{
    let at = k as usize * RECORD_SIZE;
    let record = record_bytes(f);
    body[at..at + RECORD_SIZE].copy_from_slice(&record);
}
