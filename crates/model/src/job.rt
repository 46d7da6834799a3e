// Job files: the refusals of Open and of Write, each in the document's order.
ghost use Rattle.std.specs.Prelude.{◌≤◌, ◌<◌, length};

use super::body::check_records;
use super::refusal::Refusal;
use super::trace::{MOST, RECORD};
use std::ops::Range;

const LONGEST_FILE: usize = 65536;

const MOST_TRACES: usize = 16;

// Bytes of the count of traces, and of an entry of the table.
const COUNT: usize = 2;

const ENTRY: usize = 6;

// "A four-byte offset from the file's start and a two-byte instruction count."
struct Entry {
    offset: usize,
    count: usize,
}

impl Entry {
    fn read(entry: &[u8; ENTRY]) -> Entry
        ensures { (result.offset < 4294967296) × (result.count < 65536) }
    {
        let [a, b, c, d, low, high] = *entry;
        Entry {
            offset: u32::from_le_bytes([a, b, c, d]) as usize,
            count: usize::from(u16::from_le_bytes([low, high])),
        }
    }
}

// "Entry by entry, 5 count above 4,096, 6 wrong offset. 7 length is not the last body's end."
fn check_table(table: &[[u8; ENTRY]], file_length: usize) -> Result<(), Refusal>
    requires { length table.now ≤ 16 }
{
    let mut end = COUNT + ENTRY * table.len();
    for entry in table {
        let Entry { offset, count } = Entry::read(entry);
        if count > MOST {
            return Err(Refusal::LongTrace);
        }
        if offset != end {
            return Err(Refusal::WrongOffset);
        }
        end += RECORD * count;
    }
    if file_length == end {
        Ok(())
    } else {
        Err(Refusal::WrongEnd)
    }
}

// The table of a file, which everything but 9 of Open's list could decline.
fn table_of(file: &[u8]) -> Result<&[[u8; ENTRY]], Refusal> {
    if file.len() > LONGEST_FILE {
        return Err(Refusal::LongFile);
    }
    let (count, rest) = file.split_first_chunk().ok_or(Refusal::ShortFile)?;
    let traces = usize::from(u16::from_le_bytes(*count));
    if traces > MOST_TRACES {
        return Err(Refusal::ManyTraces);
    }
    let (table, bodies) = rest
        .split_at_checked(ENTRY * traces)
        .ok_or(Refusal::CutTable)?;
    let (entries, _) = table.as_chunks::<ENTRY>();
    check_table(entries, file.len())?;
    check_records(bodies)?;
    Ok(entries)
}

// Where in the file the body of a trace stands. "9 trace number not below T", after all that declines the file.
pub fn open(file: &[u8], trace: u32) -> Result<Range<usize>, Refusal> {
    let entry = table_of(file)?
        .get(trace as usize)
        .ok_or(Refusal::NoSuchTrace)?;
    let Entry { offset, count } = Entry::read(entry);
    Ok(offset..offset + RECORD * count)
}

fn total(counts: &[u16]) -> usize
    requires { length counts.now ≤ 16 }
    ensures { result ≤ 1048576 }
{
    counts.iter().map(|&count| usize::from(count)).sum()
}

// "3 more than 16 counts. 5 a count above 4,096. 13 records not ten times the counts' sum long.
// 1 file above 65,536. 8. 14 output shorter than the file." The output has `room` bytes.
pub fn check_write(counts: &[u16], records: &[u8], room: usize) -> Result<(), Refusal> {
    if counts.len() > MOST_TRACES {
        return Err(Refusal::ManyTraces);
    }
    if counts.iter().any(|&count| usize::from(count) > MOST) {
        return Err(Refusal::LongTrace);
    }
    if !records.len().is_multiple_of(RECORD) || records.len() / RECORD != total(counts) {
        return Err(Refusal::RecordsLength);
    }
    let length = COUNT + ENTRY * counts.len() + records.len();
    if length > LONGEST_FILE {
        return Err(Refusal::LongFile);
    }
    check_records(records)?;
    if room < length {
        return Err(Refusal::ShortOutput);
    }
    Ok(())
}
