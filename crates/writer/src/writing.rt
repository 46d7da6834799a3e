// Making a job file of counts and joined records in a lent output.
ghost use Rattle.std.specs.Prelude.{◌≡◌, ◌+◌, ◌<◌, ◌≤◌, ◌++◌, length, take, drop};
ghost use Rattle.record.specs.Refusal.{◌unless◌};
ghost use Rattle.record.specs.Number.{refusal_in};
ghost use Rattle.little_endian.specs.Numbers.{half_bytes, word_bytes};
ghost use Rattle.job.specs.Layout.{entry_at, entry_size, header_size, max_file, max_traces, body_start};
ghost use Rattle.writer.specs.Write.{
  count,
  sum,
  counts_refusal,
  write_refusal,
  table_of,
  written,
  write_answer,
  write_output,
};

use acceptance::check_records;
use job::table::{COUNT_IN_ENTRY, ENTRY_SIZE, HEADER_SIZE, MAX_TRACES, RECORD_BYTES};
use little_endian::{put_half, put_word};
use machine::State;
use record::Refusal;
use record::layout::RECORD_SIZE;

// The answer as C takes it: the refusal's number and no length, or 0 and the file's length.
#[repr(C)]
#[derive(Clone, Copy, Drop)]
pub struct Written {
    pub refusal: u32,
    pub length: u32,
}

impl From<Result<u32, Refusal>> for Written {
    ghost from_gives = { λ answer given. given ≡ written answer };

    fn from(answer: Result<u32, Refusal>) -> Written {
        match answer {
            Ok(length) => Written { refusal: 0, length },
            Err(refusal) => Written {
                refusal: refusal.number(),
                length: 0,
            },
        }
    }
}

// 5: a count above 4,096.
fn check_counts(counts: &[u16]) -> Result<(), Refusal>
    ensures { refusal_in result ≡ counts_refusal counts.now }
{
    for n in counts {
        if u32::from(*n) > State::MAX_INSTRUCTIONS {
            return Err(Refusal::LargeCount);
        }
    }
    Ok(())
}

fn sum_of(counts: &[u16]) -> u32
    requires { length counts.now ≤ max_traces }
    ensures { (result ≡ sum counts.now) × (result < 1048576) }
{
    let mut total = 0;
    for n in counts {
        total += u32::from(*n);
    }
    total
}

// 3, 5, 13, 1, 8, 14.
fn check_write(counts: &[u16], records: &[u8], room: usize) -> Result<(), Refusal>
    ensures { refusal_in result ≡ write_refusal counts.now records.now room }
{
    if counts.len() > MAX_TRACES as usize {
        return Err(Refusal::TooManyTraces);
    }
    check_counts(counts)?;
    if records.len() != RECORD_SIZE * sum_of(counts) as usize {
        return Err(Refusal::WrongRecords);
    }
    let end = HEADER_SIZE as usize + ENTRY_SIZE as usize * counts.len() + records.len();
    if end > State::MAX_FILE_BYTES as usize {
        return Err(Refusal::TooLong);
    }
    check_records(records)?;
    if room < end {
        return Err(Refusal::ShortOutput);
    }
    Ok(())
}

fn put_entry(out: &mut [u8], at: usize, offset: u32, n: u32)
    requires { (at + entry_size ≤ length out.old) × (n < 65536) }
    ensures { out.new ≡ take at out.old ++ (word_bytes offset ++ half_bytes n) ++ drop (at + entry_size) out.old }
{
    put_word(out, at, offset);
    put_half(out, at + COUNT_IN_ENTRY as usize, n);
}

// The table's entries, after the header.
fn put_entries(counts: &[u16], out: &mut [u8])
    requires { (length counts.now ≤ max_traces) × (entry_at (length counts.now) ≤ length out.old) × (body_start (length counts.now) (count counts.now) (length counts.now) ≤ max_file) }
    ensures { out.new ≡ take header_size out.old ++ table_of counts.now (length counts.now) ++ drop (entry_at (length counts.now)) out.old }
{
    let mut at = HEADER_SIZE as usize;
    let mut offset = HEADER_SIZE + ENTRY_SIZE * counts.len() as u32;
    for count in counts {
        let n = u32::from(*count);
        put_entry(out, at, offset, n);
        at += ENTRY_SIZE as usize;
        offset += RECORD_BYTES * n;
    }
}

fn put_records(records: &[u8], out: &mut [u8], at: usize)
    requires { at + length records.now ≤ length out.old }
    ensures { out.new ≡ take at out.old ++ records.now ++ drop (at + length records.now) out.old }
{
    out[at..at + records.len()].copy_from_slice(records);
}

// The job file of these counts and joined records, at the start of the output; the answer is its
// length. A refusal leaves the output as it is.
pub fn write(counts: &[u16], records: &[u8], out: &mut [u8]) -> Result<u32, Refusal>
    ensures answer { written result ≡ write_answer counts.now records.now (length out.old) }
    ensures output { out.new ≡ write_output counts.now records.now out.old }
{
    check_write(counts, records, out.len())?;
    put_half(out, 0, counts.len() as u32);
    put_entries(counts, out);
    let end = HEADER_SIZE as usize + ENTRY_SIZE as usize * counts.len();
    put_records(records, out, end);
    Ok((end + records.len()) as u32)
}
