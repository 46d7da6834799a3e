// A trace is the bytes of its body: at most 4,096 records, each of which is read as an instruction.
ghost use Rattle.std.specs.Prelude.{◌≤◌, ◌<◌, length};

use super::refusal::Refusal;

// Instructions of a trace.
pub const MOST: usize = 4096;

// Bytes of a record, and where the fields start that a settling or a wait alters.
pub const RECORD: usize = 10;

pub const FLAGS: usize = 1;

pub const FETCH_LATENCY: usize = 6;

pub const DATA_LATENCY: usize = 8;

// In the order of their numbers. "Kind 4, a jump" (document 02, F-6).
#[derive(Clone, Copy, Debug, Default, PartialEq, Eq)]
pub enum Kind {
    #[default]
    Plain,
    Load,
    Store,
    Branch,
    Jump,
}

impl Kind {
    // A load or a store.
    pub fn has_data(self) -> bool {
        self == Kind::Load || self == Kind::Store
    }
}

impl TryFrom<u8> for Kind {
    type Error = Refusal;

    fn try_from(number: u8) -> Result<Self, Refusal> {
        match number {
            0 => Ok(Kind::Plain),
            1 => Ok(Kind::Load),
            2 => Ok(Kind::Store),
            3 => Ok(Kind::Branch),
            4 => Ok(Kind::Jump),
            _ => Err(Refusal::BrokenRecord),
        }
    }
}

// In the order of their numbers.
#[derive(Clone, Copy, Debug, Default, PartialEq, Eq)]
pub enum Flag {
    #[default]
    Hit,
    Miss,
    Unknown,
}

impl TryFrom<u8> for Flag {
    type Error = Refusal;

    fn try_from(number: u8) -> Result<Self, Refusal> {
        match number {
            0 => Ok(Flag::Hit),
            1 => Ok(Flag::Miss),
            2 => Ok(Flag::Unknown),
            _ => Err(Refusal::BrokenRecord),
        }
    }
}

// The fields of one instruction.
#[derive(Clone, Copy, Default)]
pub struct Instruction {
    pub kind: Kind,
    pub fetch: Flag,
    pub data: Flag,
    pub first: u8,
    pub second: u8,
    pub target: u8,
    pub execution: u32,
    pub fetch_latency: u32,
    pub data_latency: u32,
}

// Two bytes, little endian.
fn pair(low: u8, high: u8) -> u32
    ensures { result < 65536 }
{
    u32::from(u16::from_le_bytes([low, high]))
}

impl Instruction {
    // The instruction of a record, whether or not it keeps the rules: a kind that is none is read as plain, which has no
    // data access, and a flag that is none as a hit, which is not counted.
    pub fn of(record: &[u8; RECORD]) -> Instruction
        ensures { (result.fetch_latency < 65536) × (result.data_latency < 65536) }
    {
        let [
            kind,
            flags,
            first,
            second,
            target,
            execution,
            f0,
            f1,
            d0,
            d1,
        ] = *record;
        Instruction {
            kind: Kind::try_from(kind).unwrap_or_default(),
            fetch: Flag::try_from(flags % 4).unwrap_or_default(),
            data: Flag::try_from(flags / 4 % 4).unwrap_or_default(),
            first,
            second,
            target,
            execution: u32::from(execution),
            fetch_latency: pair(f0, f1),
            data_latency: pair(d0, d1),
        }
    }

    // The instruction of a record that keeps its rules. "Bits 4 to 7 are zero": a flag has two bits, and no flag has a
    // number that more than two would give.
    pub fn read(record: &[u8; RECORD]) -> Result<Instruction, Refusal> {
        let [kind, flags, ..] = *record;
        Kind::try_from(kind)?;
        Flag::try_from(flags % 4)?;
        Flag::try_from(flags / 4)?;
        let x = Instruction::of(record);
        if x.registers_break() || x.data_breaks() || x.fetch_latency == 0 {
            return Err(Refusal::BrokenRecord);
        }
        Ok(x)
    }

    // "each 0 to 31"; "Kinds 2 and 3 have target 0." A jump "may have a target" (document 02, F-6), as
    // plain ones and loads do.
    fn registers_break(self) -> bool {
        let past_last = self.first > 31 || self.second > 31 || self.target > 31;
        let no_target = self.kind == Kind::Store || self.kind == Kind::Branch;
        past_last || no_target && self.target != 0
    }

    // A data latency is "1 to 65,535 for kinds 1 and 2, and 0 for kinds 0 and 3", and "kinds 0 and 3 have data bits
    // 0". "Kind 4, a jump, has data bits and data latency 0" (document 02, F-6).
    fn data_breaks(self) -> bool {
        if self.kind.has_data() {
            return self.data_latency == 0;
        }
        self.data_latency != 0 || self.data != Flag::Hit
    }
}

// The whole records of a body, as many as a trace may have.
pub fn records(body: &[u8]) -> &[[u8; RECORD]]
    ensures { length result.now ≤ 4096 }
{
    let (all, _) = body.as_chunks::<RECORD>();
    &all[..all.len().min(MOST)]
}

// Instruction i of a body, whether or not its record keeps the rules. Past the end every byte is 0.
pub fn instruction_at(body: &[u8], i: usize) -> Instruction
    ensures { (result.fetch_latency < 65536) × (result.data_latency < 65536) }
{
    let rest = body.get(i.saturating_mul(RECORD)..).unwrap_or(b"");
    let mut record = [0; RECORD];
    for (byte, &read) in record.iter_mut().zip(rest) {
        *byte = read;
    }
    Instruction::of(&record)
}
