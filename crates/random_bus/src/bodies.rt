// Bodies that come near the refusals: few of their accesses missed, a latency near the longest, or damaged.
ghost use Rattle.std.specs.Prelude.{◌≤◌, ◌<◌};

use random_traces::{Dice, Draft, has_data_access};
use record::layout::{DATA_LATENCY, FETCH_LATENCY, FLAGS, RECORD_SIZE};

// The bytes of a draft, of which those behind its body may become part of a damaged one.
pub type Bytes = [u8; 120];

const RECORDS: u32 = 12;

const LONGEST: u32 = 65535;

// Above this a latency takes the second model long.
const LONG: u32 = 2000;

// Three of four records hit, so that a longer trace has few missed accesses too. Counted by record, since its number
// also says which bits of the dice it takes.
pub fn make_sparse(bytes: &mut Bytes, d: Dice) {
    for k in 0..RECORDS {
        if d.part(4 * k, 4) != 0 {
            bytes[RECORD_SIZE * k as usize + FLAGS] = 0;
        }
    }
}

// A wait from the whole range, every other time one that leaves room for a latency of h to h + 8: a data latency that
// is not above h gives 17 before 15.
pub fn wait_of(d: Dice, hit_cycles: u32) -> u16
    requires { hit_cycles < 17 }
{
    let wait = if d.part(40, 2) == 0 {
        LONGEST - hit_cycles - d.part(20, 9)
    } else {
        d.part(20, 65536)
    };
    wait as u16
}

// 0, 1 or 2 at random. Where the latency is long it is 2, which gives 15, but for a few: the second model runs a long
// latency that is accepted cycle after cycle.
fn beyond(room: u32, d: Dice, rare: bool) -> u32
    ensures { result ≤ 2 }
{
    if room > LONG && !rare {
        2
    } else {
        d.part(33, 3)
    }
}

// A latency that with the wait is 65,534, 65,535 or 65,536, as far as a latency can be.
fn near(wait: u16, d: Dice, rare: bool) -> u16 {
    let room = LONGEST - u32::from(wait);
    let latency = (room + beyond(room, d, rare)).saturating_sub(1);
    latency.max(1).min(LONGEST) as u16
}

// Where a record with this first byte, which may be no kind, has a latency: that of its data access, if it
// has one and the dice say so, or else of its fetch.
fn latency_of(kind: u8, d: Dice) -> usize
    ensures { result ≤ 8 }
{
    if has_data_access(kind) && d.part(11, 2) == 0 {
        DATA_LATENCY
    } else {
        FETCH_LATENCY
    }
}

// One latency of the draft's records becomes near the longest that the wait leaves room for.
pub fn lengthen(bytes: &mut Bytes, draft: &Draft, wait: u16, d: Dice, rare: bool) {
    let record = d.part(5, draft.records.max(1) as u64) as usize;
    let start = RECORD_SIZE * record;
    let at = start + latency_of(bytes[start], d);
    bytes[at..at + 2].copy_from_slice(&near(wait, d, rare).to_le_bytes());
}

// Every other time one byte changes. A body draws otherwise than a file is damaged (`random`, `random_jobs`).
pub fn damage(bytes: &mut Bytes, d: Dice) {
    if d.part(3, 2) == 0 {
        bytes[d.part(9, 120) as usize] = d.damage();
    }
}

// The length of a body, or in one of four any other.
pub fn damaged_length(length: usize, d: Dice) -> usize
    ensures { length ≤ 120 → result ≤ 120 }
{
    if d.part(17, 4) == 0 {
        d.part(21, 121) as usize
    } else {
        length
    }
}
