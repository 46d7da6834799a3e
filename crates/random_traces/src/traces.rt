// Traces of 0 to 12 instructions as bodies, dense in hazards: four registers, short latencies, and
// now and then the longest.
ghost use Rattle.std.specs.Prelude.{◌<◌, ◌≤◌, length};
ghost use Rattle.record.specs.Layout.{Fits};

use super::dice::Dice;
use decode::{kind_number, kind_of};
use machine::Kind;
use record::layout::RECORD_SIZE;
use record::{Fields, put_record};

// Two of eight are plain, two loads, two stores, one is a branch and one a jump: behind these two a fetch
// waits, and fewer instructions get in each other's way.
const KINDS: [Kind; 8] = [
    Kind::Plain,
    Kind::Plain,
    Kind::Load,
    Kind::Load,
    Kind::Store,
    Kind::Store,
    Kind::Branch,
    Kind::Jump,
];

// How many h there are to draw: 0 to 15, and 16, with which 17 declines every trace.
const HITS: u64 = 17;

const LONGEST: u32 = 65535;

// A body, the first so many records of these bytes, and the dice after it.
#[derive(Clone, Copy)]
pub struct Draft {
    pub bytes: [u8; 120],
    pub records: usize,
    pub dice: Dice,
    ghost fits: { records ≤ 12 },
}

impl Draft {
    pub fn body(&self) -> &[u8]
        ensures { length result.now ≤ 120 }
    {
        &self.bytes[..RECORD_SIZE * self.records]
    }
}

// What a trace is drawn from: whether flags may be unknown, whether a latency may be the longest, h, and whether
// data latencies come near it.
#[derive(Clone, Copy)]
pub struct Style {
    pub unknown: bool,
    pub long: bool,
    pub hit_cycles: u32,
    pub near: bool,
}

impl Dice {
    pub fn hit_cycles(self) -> u32
        ensures { result < 17 }
    {
        self.part(40, HITS)
    }

    fn latency(self, at: u32, long: bool) -> u32
        ensures { result < 65536 }
    {
        if long && self.part(at, 16) == 0 {
            LONGEST
        } else {
            1 + self.part(at, 6)
        }
    }
}

// h - 1, h or h + 1, of which 17 declines the first two, but no latency of 0, which 8 declines.
fn about(hit_cycles: u32, d: Dice) -> u32
    ensures { result < 65536 }
{
    hit_cycles
        .saturating_add(d.part(33, 3))
        .saturating_sub(1)
        .max(1)
        .min(LONGEST)
}

// Above h, which 17 does not decline, or every other time near it where the style asks for that.
fn data_latency(d: Dice, style: Style) -> u32
    ensures { result < 65536 }
{
    if style.near && d.part(30, 2) == 0 {
        return about(style.hit_cycles, d);
    }
    d.latency(8, style.long)
        .saturating_add(style.hit_cycles)
        .min(LONGEST)
}

fn is_memory(kind: Kind) -> bool {
    matches!(kind, Kind::Load | Kind::Store)
}

// Whether a record with this first byte, which may be no kind, is a load or a store.
pub fn has_data_access(kind: u8) -> bool {
    is_memory(kind_of(u32::from(kind)))
}

fn drawn(d: Dice, e: Dice, style: Style) -> Fields
    ensures { Fits result }
{
    let kind = KINDS[d.part(0, 8) as usize];
    let memory = is_memory(kind);
    let target = !matches!(kind, Kind::Store | Kind::Branch);
    let flags = if style.unknown { 3 } else { 2 };
    Fields {
        kind: kind_number(kind),
        fetch: d.part(3, flags),
        access: if memory { d.part(6, flags) } else { 0 },
        source1: d.part(10, 4),
        source2: d.part(13, 4),
        target: if target { d.part(16, 4) } else { 0 },
        execution: if d.part(24, 2) != 0 { d.part(20, 5) } else { 0 },
        fetch_latency: e.latency(0, style.long),
        data_latency: if memory { data_latency(e, style) } else { 0 },
    }
}

pub fn trace(dice: Dice, style: Style) -> Draft {
    let mut dice = dice.rolled();
    let records = dice.part(30, 13);
    let mut bytes = [0; 120];
    // By number, since the dice roll on from record to record.
    for k in 0..records {
        let d = dice.rolled();
        dice = d.rolled();
        put_record(&mut bytes, k, drawn(d, dice, style));
    }
    Draft {
        bytes,
        records: records as usize,
        dice,
    }
}
