// What declines a call, each with the number that the documents give it. The model has the list on its own: it shares
// nothing with the engine.
#[derive(Clone, Copy, Debug, PartialEq, Eq)]
pub enum Refusal {
    LongFile = 1,
    ShortFile = 2,
    ManyTraces = 3,
    CutTable = 4,
    LongTrace = 5,
    WrongOffset = 6,
    WrongEnd = 7,
    BrokenRecord = 8,
    NoSuchTrace = 9,
    BodyLength = 10,
    UnknownFlag = 11,
    RecordsLength = 13,
    ShortOutput = 14,
    LongWait = 15,
    FewPlaces = 16,
    HitCycles = 17,
}

impl Refusal {
    pub fn number(self) -> u32 {
        self as u32
    }
}

// The number of an answer's refusal, 0 where nothing declined the call.
pub fn number_of<T>(answer: &Result<T, Refusal>) -> u32 {
    match answer {
        Ok(_) => 0,
        Err(refusal) => refusal.number(),
    }
}
