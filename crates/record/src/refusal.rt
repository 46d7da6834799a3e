// Why a call declines, in the words of docs/FORMAT.md.
ghost use Rattle.std.specs.Prelude.{◌≡◌};
ghost use Rattle.record.specs.Number.{number};

// The refusals by name, each with the number that the documents give it; 0 is no refusal.
#[derive(Clone, Copy, Debug, PartialEq, Eq, Drop)]
pub enum Refusal {
    // The file is longer than 65,536 bytes.
    TooLong = 1,
    // The file is shorter than two bytes.
    TooShort = 2,
    // There are more than 16 traces.
    TooManyTraces = 3,
    // The file ends within its table.
    CutTable = 4,
    // A trace has more than 4,096 instructions.
    LargeCount = 5,
    // An offset is not where its body starts.
    WrongOffset = 6,
    // The file does not end with its last body.
    WrongEnd = 7,
    // A record breaks its rules.
    BrokenRecord = 8,
    // There is no such trace or instruction.
    OutOfRange = 9,
    // The body is not ten bytes for each of at most 4,096 instructions.
    WrongLength = 10,
    // A flag is unknown where each must be a hit or a miss.
    UnknownFlag = 11,
    // The state is not orderly.
    NotOrderly = 12,
    // The records are not ten bytes for each instruction counted.
    WrongRecords = 13,
    // The output is shorter than the file.
    ShortOutput = 14,
    // A counted latency plus the wait exceeds 65,535.
    LongWait = 15,
    // The list has fewer places than there are traces.
    ShortList = 16,
    // A data hit takes more than 15 cycles, or no fewer than a load's or store's data latency.
    LongHit = 17,
}

impl Refusal {
    pub fn number(self) -> u32
        ensures { result ≡ number self }
    {
        self as u32
    }
}
