// A second trace that differs by hits turned into misses and longer latencies only, and the order
// between the two: no instruction is ever further on in the second.
ghost use Rattle.std.specs.Prelude.{◌<◌};

use crate::case::Settled;
use model::{Instruction, Place, Stage, Standing};
use random_traces::{Dice, Draft, has_data_access};
use record::layout::{DATA_LATENCY, EXECUTION, FETCH_LATENCY, FLAGS, RECORD_SIZE};

// What is added to a flag: 1 where it was a hit and is to be a miss.
fn missed(hit: bool, d: Dice, at: u32) -> u8
    ensures { result < 2 }
{
    if hit { d.small(at, 2) } else { 0 }
}

// The two flags of a record, of which hits may be misses in the second body.
fn slower_flags(b: u8, d: Dice, memory: bool) -> u8 {
    let fetch = missed(b % 4 == 0, d, 3);
    let access = missed(memory && b / 4 % 4 == 0, d, 9);
    b % 16 + fetch + access * 4
}

// An execution latency, or the low byte of another latency, made longer by up to 3.
fn slower_latency(b: u8, d: Dice) -> u8 {
    if b < 250 { b + d.small(20, 4) } else { b }
}

// What byte `at` of a record may be in the second body.
fn slower_byte(b: u8, at: usize, d: Dice, flags: bool, memory: bool) -> u8 {
    match at {
        FLAGS if flags => slower_flags(b, d, memory),
        EXECUTION | FETCH_LATENCY => slower_latency(b, d),
        DATA_LATENCY if memory => slower_latency(b, d),
        _ => b,
    }
}

// Counted by byte, since a byte's place says which field it is, and every byte takes a roll.
pub fn slower(draft: &Draft, flags: bool) -> Draft {
    let mut bytes = draft.bytes;
    let mut dice = draft.dice;
    for i in 0..120 {
        dice = dice.rolled();
        let at = i % RECORD_SIZE;
        if i / RECORD_SIZE < draft.records {
            let memory = has_data_access(bytes[i - at]);
            bytes[i] = slower_byte(bytes[i], at, dice, flags, memory);
        }
    }
    Draft {
        bytes,
        records: draft.records,
        dice,
    }
}

// Further: a later stage, or the same stage with a smaller count. ST and WB are one step.
fn level(stage: Stage) -> Stage {
    if stage == Stage::WB { Stage::ST } else { stage }
}

fn further(at: Place, than: Place) -> bool {
    (level(at.stage), than.count) > (level(than.stage), at.count)
}

// No instruction is further on in the second row than in the first.
fn row_ordered(first: &[Standing], second: &[Standing]) -> bool {
    first
        .iter()
        .zip(second)
        .all(|(a, b)| !further(b.place, a.place))
}

fn added_to(a: Instruction, b: Instruction) -> u64 {
    let execution = b.execution.saturating_sub(a.execution);
    let fetch = b.fetch_latency.saturating_sub(a.fetch_latency);
    let access = b.data_latency.saturating_sub(a.data_latency);
    u64::from(execution) + u64::from(fetch) + u64::from(access)
}

impl Settled<'_> {
    // Up to the second trace's end no instruction is further on in it.
    pub fn is_ahead_of(&self, second: &Settled) -> bool {
        let mut early = self.core;
        let mut late = second.core;
        for _ in 0..second.time {
            if !row_ordered(early.row(), late.row()) {
                return false;
            }
            early.cycle(self.case.hit_cycles);
            late.cycle(second.case.hit_cycles);
        }
        row_ordered(early.row(), late.row())
    }

    // What was added: the second's three latencies less the first's, over all instructions.
    pub fn added_in(&self, second: &Settled) -> u64 {
        let both = self.core.row().iter().zip(second.core.row());
        both.fold(0, |sum: u64, (a, b)| {
            sum.saturating_add(added_to(a.instruction, b.instruction))
        })
    }
}
