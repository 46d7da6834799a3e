// Job files of up to 16 short traces, whole and damaged.
use crate::calls::Job;
use arrayvec::{ArrayVec, CapacityError};
use job::table::{ENTRY_SIZE, HEADER_SIZE};
use random_traces::{Dice, Style, trace};
use record::layout::RECORD_SIZE;
use writer::write;

// Room for 16 traces of four records.
const ROOM: usize = 800;

// The traces drawn so far, their records one behind the other, and the dice after them.
#[derive(Drop)]
struct Joined {
    counts: ArrayVec<u16, 16>,
    records: ArrayVec<u8, ROOM>,
    dice: Dice,
}

// A file made of so many traces, empty where Write declined to make it; how many cycles a data hit takes, and the dice
// after it.
#[derive(Drop)]
pub struct File {
    bytes: ArrayVec<u8, ROOM>,
    traces: u32,
    hit_cycles: u32,
    pub dice: Dice,
}

// How a trace of a job is drawn. One of sixteen has data latencies near h: 17 declines a job for one record of any trace.
fn style_of(hit_cycles: u32, d: Dice) -> Style {
    Style {
        unknown: true,
        long: false,
        hit_cycles,
        near: d.part(20, 16) == 0,
    }
}

impl Joined {
    // At most four records of a trace: the second model runs every settling, and four have at most eight unknown flags.
    fn add_trace(&mut self, hit_cycles: u32) -> Result<(), CapacityError> {
        let draft = trace(self.dice, style_of(hit_cycles, self.dice.rolled()));
        self.dice = draft.dice.rolled();
        let records = draft.records.min(self.dice.part(12, 5) as usize);
        self.records
            .try_extend_from_slice(&draft.bytes[..RECORD_SIZE * records])?;
        self.counts
            .try_push(records as u16)
            .map_err(CapacityError::simplify)
    }

    fn drawn(traces: u32, dice: Dice, hit_cycles: u32) -> Result<Joined, CapacityError> {
        let mut joined = Joined {
            counts: ArrayVec::new(),
            records: ArrayVec::new(),
            dice,
        };
        for _ in 0..traces {
            joined.add_trace(hit_cycles)?;
        }
        Ok(joined)
    }
}

// Another byte, and a small one: as a latency's high byte it makes about 10,000 cycles, each of which the second
// model runs.
fn other(b: u8, d: Dice) -> u8 {
    ((u32::from(b) + 1 + d.part(30, 40)) % 41) as u8
}

impl File {
    pub fn made(traces: u32, dice: Dice, hit_cycles: u32) -> Result<File, CapacityError> {
        let joined = Joined::drawn(traces, dice, hit_cycles)?;
        let mut bytes = [0; ROOM];
        let counts = joined.counts.as_slice();
        let length = write(counts, joined.records.as_slice(), &mut bytes).unwrap_or(0);
        let mut bytes = ArrayVec::from(bytes);
        bytes.truncate(length as usize);
        Ok(File {
            bytes,
            traces,
            hit_cycles,
            dice: joined.dice,
        })
    }

    pub fn job(&self) -> Job<'_> {
        Job {
            file: self.bytes.as_slice(),
            traces: self.traces,
            hit_cycles: self.hit_cycles,
        }
    }

    // With one of the first so many bytes changed.
    fn change(&mut self, end: u64) {
        let at = self.dice.part(9, end) as usize;
        if let Some(byte) = self.bytes.get_mut(at) {
            *byte = other(*byte, self.dice);
        }
    }

    // Cut anywhere, one byte longer, or with one byte changed, in the table or anywhere.
    pub fn damage(&mut self) {
        self.dice = self.dice.rolled();
        let length = self.bytes.len() as u64;
        match self.dice.part(2, 4) {
            0 => self.bytes.truncate(self.dice.part(9, length) as usize),
            1 => {
                // There is room.
                let _ = self.bytes.try_push(0);
            }
            2 => self.change(
                u64::from(HEADER_SIZE) + u64::from(ENTRY_SIZE) * u64::from(self.traces),
            ),
            _ => self.change(length),
        }
    }
}
