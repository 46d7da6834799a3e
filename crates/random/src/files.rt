// Job files of a body's records, whole and damaged: a byte changed, cut, lengthened.
use arrayvec::{ArrayVec, CapacityError};
use job::locate;
use model::check_write;
use random_traces::{Dice, Draft, agree};
use record::Refusal;
use record::layout::RECORD_SIZE;
use writer::write;

const ROOM: usize = 160;

// A job file or a body.
pub type Bytes = ArrayVec<u8, ROOM>;

// What Write is given.
type Counts = ArrayVec<u16, 17>;

// What Write made of records, what it answered without room for a file, and whether the model gives the same.
#[derive(Drop)]
pub struct Written {
    pub file: Result<Bytes, Refusal>,
    pub short: Result<u32, Refusal>,
    pub agree: bool,
}

// Three counts that add up to n.
fn shares(n: u16, d: Dice) -> [u16; 3] {
    let a = d.part(5, u64::from(n) + 1) as u16;
    let rest = n - a;
    let b = d.part(11, u64::from(rest) + 1) as u16;
    [a, b, rest - b]
}

// Three counts for n instructions; now and then 17 of them, only two, or one above 4,096.
fn listed(n: u16, d: Dice) -> Counts {
    let mut counts = [0; 17];
    counts[..3].copy_from_slice(&shares(n, d));
    let how = d.part(23, 32);
    if how == 0 {
        counts[0] = 4097;
    }
    let length = match how {
        1 => 17,
        2 => 2,
        _ => 3,
    };
    let mut list = Counts::from(counts);
    list.truncate(length);
    list
}

impl Written {
    pub fn of(records: &[u8], d: Dice) -> Written {
        let list = listed((records.len() / RECORD_SIZE % 13) as u16, d);
        let counts = list.as_slice();
        let mut out = [0; ROOM];
        let answer = write(counts, records, &mut out);
        // There is room for three empty traces and nothing more.
        let short = write(counts, records, &mut [0; 20]);
        Written {
            file: answer.map(|length| {
                let mut file = Bytes::from(out);
                file.truncate(length as usize);
                file
            }),
            short,
            agree: agree(&answer, &check_write(counts, records, ROOM), |_, _| true)
                && agree(&short, &check_write(counts, records, 20), |_, _| true),
        }
    }
}

// A file of 65,537 bytes, one too many to open.
fn long_file_agrees() -> bool {
    opens_alike(&[0; 65537], 0)
}

// 6,553 records, too many to write.
fn long_records_agree() -> bool {
    let records = [0; 65530];
    let counts = [4096, 2457];
    let answer = write(&counts, &records, &mut [0; ROOM]);
    agree(&answer, &check_write(&counts, &records, ROOM), |_, _| true)
}

pub fn long_ones_agree() -> bool {
    long_file_agrees() && long_records_agree()
}

// Open answers for a trace number as the model does.
fn opens_alike(file: &[u8], trace: u32) -> bool {
    let told = model::open(file, trace);
    agree(&locate(file, trace), &told, |found, part| {
        *part == (found.start..found.end)
    })
}

// For every trace number from 0 to 3; a file of three traces has no trace 3.
pub fn file_agrees(file: &[u8]) -> bool {
    (0..4).all(|trace| opens_alike(file, trace))
}

// Cut anywhere, one byte longer, or with one byte changed, every other time one of the first twenty.
pub fn damage(bytes: &mut Bytes, d: Dice) {
    let at = d.part(9, 160) as usize;
    let mut change = |at: usize| {
        if let Some(byte) = bytes.get_mut(at) {
            *byte = d.damage();
        }
    };
    match d.part(2, 4) {
        0 => bytes.truncate(d.part(9, bytes.len() as u64 + 1) as usize),
        1 => {
            // There is room.
            let _ = bytes.try_push(0);
        }
        2 => change(at % 20),
        _ => change(at),
    }
}

// A body that may be broken.
pub fn broken(draft: &Draft, d: Dice) -> Result<Bytes, CapacityError> {
    let mut bytes = Bytes::try_from(draft.body())?;
    damage(&mut bytes, d);
    Ok(bytes)
}
