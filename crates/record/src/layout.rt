// The nine fields of an instruction's record, read from the bytes as they stand.
ghost use Rattle.std.specs.Prelude.{◌≡◌, ◌≤◌};
ghost use Rattle.std.specs.Simd.{first_chunks};
ghost use Rattle.machine.specs.State.{max_instructions};
ghost use Rattle.record.specs.Layout.{record_size, fields_from};
ghost use Rattle.record.specs.Body.{records, no_fields, read_in, read_answer};

use crate::refusal::Refusal;
use little_endian::{byte_at, half_at};

// The record's size, and where each field starts in it.
pub const RECORD_SIZE: usize = 10;

pub const KIND: usize = 0;

pub const FLAGS: usize = 1;

pub const SOURCE1: usize = 2;

pub const SOURCE2: usize = 3;

pub const TARGET: usize = 4;

pub const EXECUTION: usize = 5;

pub const FETCH_LATENCY: usize = 6;

pub const DATA_LATENCY: usize = 8;

// Flags are 0 hit, 1 miss, 2 unknown. In bytes that were never checked a flag may be 3, and a kind
// anything up to 255; so these are numbers, and C has this struct (`sic_record`).
#[repr(C)]
#[derive(Clone, Copy, Debug, Default, PartialEq, Eq, Drop)]
pub struct Fields {
    pub kind: u32,
    pub fetch: u32,
    pub access: u32,
    pub source1: u32,
    pub source2: u32,
    pub target: u32,
    pub execution: u32,
    pub fetch_latency: u32,
    pub data_latency: u32,
}

// A reading as C takes it: the refusal's number and zeros, or 0 and the fields.
#[repr(C)]
#[derive(Clone, Copy, Drop)]
pub struct Read {
    pub refusal: u32,
    pub fields: Fields,
}

impl From<Result<Fields, Refusal>> for Read {
    ghost from_gives = { λ answer read. read ≡ read_in answer };

    fn from(answer: Result<Fields, Refusal>) -> Read {
        match answer {
            Ok(fields) => Read { refusal: 0, fields },
            Err(refusal) => Read {
                refusal: refusal.number(),
                fields: no_fields(),
            },
        }
    }
}

// How many records a body has, where its length was checked.
pub fn count(body: &[u8]) -> u32
    requires { records body.now ≤ max_instructions }
    ensures { result ≡ records body.now }
{
    (body.len() / RECORD_SIZE) as u32
}

// The body's whole records, where they lie.
pub fn records(body: &[u8]) -> &[[u8; RECORD_SIZE]]
    ensures { result.now ≡ first_chunks record_size (records body.now) body.now }
{
    body.as_chunks::<RECORD_SIZE>().0
}

// The fields of a record.
pub fn fields_of(bytes: &[u8; RECORD_SIZE]) -> Fields
    ensures { result ≡ fields_from bytes.now 0 }
{
    let flags = byte_at(bytes, FLAGS);
    Fields {
        kind: byte_at(bytes, KIND),
        fetch: flags % 4,
        access: flags / 4 % 4,
        source1: byte_at(bytes, SOURCE1),
        source2: byte_at(bytes, SOURCE2),
        target: byte_at(bytes, TARGET),
        execution: byte_at(bytes, EXECUTION),
        fetch_latency: half_at(bytes, FETCH_LATENCY),
        data_latency: half_at(bytes, DATA_LATENCY),
    }
}

// All zeros, where there is no instruction.
pub fn no_fields() -> Fields
    ensures { result ≡ no_fields }
{
    Fields {
        kind: 0,
        fetch: 0,
        access: 0,
        source1: 0,
        source2: 0,
        target: 0,
        execution: 0,
        fetch_latency: 0,
        data_latency: 0,
    }
}

// The fields of instruction k, whether or not the bytes were checked.
pub fn fields_at(body: &[u8], k: u32) -> Result<Fields, Refusal>
    ensures { read_in result ≡ read_answer body.now k }
{
    let records = records(body);
    let i = k as usize;
    if i < records.len() {
        return Ok(fields_of(&records[i]));
    }
    Err(Refusal::OutOfRange)
}

// The same, and all zeros where there is no such instruction.
pub fn fields_or_zeros(body: &[u8], k: u32) -> Fields
    ensures { result ≡ (read_answer body.now k).fields }
{
    fields_at(body, k).unwrap_or(no_fields())
}
