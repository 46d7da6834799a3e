// Finding a trace's body in a job file, after every check of the file.
ghost use Rattle.std.specs.Prelude.{◌≡◌, ◌<◌, ◌≤◌, IfOk};
ghost use Rattle.record.specs.Number.{refusal_in};
ghost use Rattle.job.specs.Layout.{traces, max_traces, start_at};
ghost use Rattle.job.specs.Open.{
  table_refusal,
  entries_refusal,
  file_refusal,
  bounds_at,
  located,
  locate_answer,
};

use acceptance::check_records;
use little_endian::{half, word};
use machine::State;
use record::layout::RECORD_SIZE;
use record::refusal::Refusal;

// The header is the count of traces; an entry is an offset and a count of instructions.
pub const HEADER_SIZE: u32 = 2;

pub const ENTRY_SIZE: u32 = 6;

pub const COUNT_IN_ENTRY: u32 = 4;

pub const MAX_TRACES: u32 = 16;

pub const RECORD_BYTES: u32 = RECORD_SIZE as u32;

// Where a body starts and ends in its file.
#[derive(Clone, Copy, Debug, PartialEq, Eq, Drop)]
pub struct Bounds {
    pub start: usize,
    pub end: usize,
}

// 1 to 4: the table is there.
fn check_table(file: &[u8]) -> Result<(), Refusal>
    ensures { refusal_in result ≡ table_refusal file.now }
{
    if file.len() > State::MAX_FILE_BYTES as usize {
        return Err(Refusal::TooLong);
    }
    if file.len() < HEADER_SIZE as usize {
        return Err(Refusal::TooShort);
    }
    let count = half(file, 0);
    if count > MAX_TRACES {
        return Err(Refusal::TooManyTraces);
    }
    if file.len() < (HEADER_SIZE + ENTRY_SIZE * count) as usize {
        return Err(Refusal::CutTable);
    }
    Ok(())
}

// 5 and 6, entry by entry; and where the last body ends.
fn check_entries(file: &[u8], count: u32) -> Result<u32, Refusal>
    requires { (count ≡ traces file.now) × (count ≤ max_traces) }
    ensures refusal { refusal_in result ≡ entries_refusal file.now }
    ensures end { IfOk result (λ end. end ≡ start_at file.now count) }
{
    let mut end = HEADER_SIZE + ENTRY_SIZE * count;
    for t in 0..count {
        let at = HEADER_SIZE + ENTRY_SIZE * t;
        let instructions = half(file, at + COUNT_IN_ENTRY);
        if instructions > State::MAX_INSTRUCTIONS {
            return Err(Refusal::LargeCount);
        }
        if word(file, at) != end {
            return Err(Refusal::WrongOffset);
        }
        end += RECORD_BYTES * instructions;
    }
    Ok(end)
}

// 1 to 8: everything that can decline a file, whichever trace is asked for.
pub fn check_file(file: &[u8]) -> Result<(), Refusal>
    ensures { refusal_in result ≡ file_refusal file.now }
{
    check_table(file)?;
    let count = half(file, 0);
    let end = check_entries(file, count)?;
    if file.len() != end as usize {
        return Err(Refusal::WrongEnd);
    }
    let first = (HEADER_SIZE + ENTRY_SIZE * count) as usize;
    check_records(&file[first..])
}

// For callers that have checked the file; no call of the engine's.
pub fn bounds_of(file: &[u8], trace: u32) -> Bounds
    requires { (file_refusal file.now ≡ 0) × (trace < traces file.now) }
    ensures { result ≡ bounds_at file.now trace }
{
    let at = HEADER_SIZE + ENTRY_SIZE * trace;
    let start = word(file, at);
    let end = start + RECORD_BYTES * half(file, at + COUNT_IN_ENTRY);
    Bounds {
        start: start as usize,
        end: end as usize,
    }
}

// Where a trace's body stands, if the file is accepted and has that trace.
pub fn locate(file: &[u8], trace: u32) -> Result<Bounds, Refusal>
    ensures { located result ≡ locate_answer file.now trace }
{
    check_file(file)?;
    if trace >= half(file, 0) {
        return Err(Refusal::OutOfRange);
    }
    Ok(bounds_of(file, trace))
}
