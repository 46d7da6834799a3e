// The time given against every trace that it has to cover: "It must hold for every settling of the flags and every
// added wait from 0 to d on each missed access" (document 02, F-1).
use crate::calls::Call;
use crate::rows::watch;
use model::Core;
use random_traces::{Count, Dice};
use record::Refusal;
use std::ops::Range;
use timing::finish;

// A trace with more accesses marked miss or unknown has too many versions: of these some are run.
const FEW: u32 = 4;

const SOME: u32 = 2;

// There are no more versions than that: 5 ways for each of 4 accesses.
const VERSIONS: u32 = 625;

// How many traces attain the time given, how many do not, and by how much at most.
#[derive(Clone, Copy, Debug, Default)]
pub struct Attained {
    pub exact: Count,
    pub short: Count,
    pub gap: u32,
}

// Traces, those that 17 declined, and of the others those with h above 0 and those of which every version was run;
// their versions, the rows of these, and the rows with an access under way; what is attained, in all of which every
// version was run and in those with one missed access and no unknown one; what does not hold.
#[derive(Clone, Copy, Debug, Default)]
pub struct Covers {
    pub traces: Count,
    pub declined: Count,
    pub with_hits: Count,
    pub whole: Count,
    pub versions: Count,
    pub rows: Count,
    pub busy: Count,
    pub all: Attained,
    pub single: Attained,
    pub wrong: Count,
}

// Of the versions of a trace: how many there are, the greatest finishing time, their rows, how many of these have an
// access under way, the most in a row of the engine's or of the model's, and whether the two differ on a finishing time
// or on how many rows have an access under way.
#[derive(Clone, Copy, Debug, Default)]
struct Versions {
    number: u64,
    greatest: u32,
    rows: u64,
    busy: u64,
    most: usize,
    differ: bool,
}

impl Attained {
    // A trace more whose versions come so near to the time given.
    fn add(&mut self, gap: u32) {
        self.exact.add_one_if(gap == 0);
        self.short.add_one_if(gap > 0);
        self.gap = self.gap.max(gap);
    }
}

impl Versions {
    // Those of these choices, each with its rows and its finishing time, by the engine and by the model. Every version
    // has a choice below the first without one.
    fn run(call: &Call, choices: Range<u32>, every: bool) -> Versions {
        let mut versions = Versions::default();
        let mut out = [0; 120];
        for choice in choices {
            let left = model_bus::version(call.body, choice, u32::from(call.wait), &mut out);
            if every && left != 0 {
                break;
            }
            let length = call.body.len().min(out.len());
            versions.add(&out[..length], call.hit_cycles);
        }
        versions
    }

    // A version more. By the model all have left at its end.
    fn add(&mut self, body: &[u8], hit_cycles: u32) {
        let Ok(mut core) = Core::<12>::of(body) else {
            self.differ = true;
            return;
        };
        let seen = model_bus::watch(&mut core, hit_cycles);
        let ours = watch(body, seen.rows, hit_cycles);
        let answer = finish(body, hit_cycles);
        let same = answer == Ok(seen.rows) && ours.rows == seen.busy;
        self.number = self.number.saturating_add(1);
        self.greatest = self.greatest.max(answer.unwrap_or(0));
        self.rows = self.rows.saturating_add(u64::from(seen.rows));
        self.busy = self.busy.saturating_add(u64::from(seen.busy));
        self.most = self.most.max(seen.most).max(ours.most);
        self.differ |= !same || !core.all_left();
    }

    // None finishes later than the time given, and none has two accesses under way. The time given is the greatest
    // where it has to be: over every version, without a wait.
    fn hold(&self, given: u32, attains: bool) -> bool {
        let exact = !attains || self.greatest == given;
        !self.differ && self.greatest <= given && exact && self.most <= 1
    }
}

// The choices of every version, or of some.
fn choices(d: Dice, every: bool) -> Range<u32> {
    if every {
        return 0..VERSIONS;
    }
    let first = d.part(8, 65536) * 61000 + d.part(24, 65536) % 61000;
    first..first + SOME
}

impl Covers {
    // The versions for a wait from 0 to 3. Whether the time given is attained is asked where every version is run and
    // there is something to add. Where 17 declines the trace there is no time to cover.
    pub fn add(&mut self, body: &[u8], d: Dice, hit_cycles: u32) {
        let call = Call {
            body,
            wait: d.part(15, 4) as u16,
            hit_cycles,
        };
        let given = call.by_engine();
        self.traces.add_one();
        if model::check_hits(body, hit_cycles).is_err() {
            self.declined.add_one();
            self.wrong.add_one_if(given != Err(Refusal::LongHit));
            return;
        }
        let accesses = model_bus::accesses(body);
        let every = accesses <= FEW;
        let versions = Versions::run(&call, choices(d, every), every);
        let attains = every && call.wait == 0;
        let right = given.is_ok_and(|g| versions.hold(g.time, attains));
        self.wrong.add_one_if(!right);
        self.with_hits.add_one_if(hit_cycles > 0);
        self.whole.add_one_if(every);
        self.versions.add(versions.number);
        self.rows.add(versions.rows);
        self.busy.add(versions.busy);
        if every && accesses > 0 && call.wait > 0 {
            let gap = given
                .map_or(0, |g| g.time)
                .saturating_sub(versions.greatest);
            self.all.add(gap);
            if accesses == 1 && model::unknowns(body) == 0 {
                self.single.add(gap);
            }
        }
    }
}
