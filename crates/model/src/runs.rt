// From the start, cycle after cycle: a run within a limit, and the finishing time.
use super::places::{Core, Standing};
use super::rules::cycle;
use super::trace::{Flag, Instruction};

// How many cycles were run, and whether all have left. The number is an answer in either case, so that it is no Option.
#[derive(Clone, Copy)]
pub struct Ran {
    pub cycles: u32,
    pub left: bool,
}

// The data access in the bound: "h in place of the data latency on hits" (document 02, F-4), and
// nothing for a kind without one. An unknown access may miss, so that its data latency, which 17 keeps
// above h, is the safe one of the two.
fn data_cycles(x: Instruction, hit_cycles: u32) -> u32 {
    match x.data {
        _ if !x.kind.has_data() => 0,
        Flag::Hit => hit_cycles,
        Flag::Miss | Flag::Unknown => x.data_latency,
    }
}

// One instruction's part in the bound, added to that of those before it, or the largest number where that is less.
fn with_latencies(sum: u32, s: &Standing, hit_cycles: u32) -> u32 {
    let x = s.instruction;
    sum.saturating_add(6)
        .saturating_add(x.execution)
        .saturating_add(x.fetch_latency)
        .saturating_add(data_cycles(x, hit_cycles))
}

impl<const N: usize> Core<N> {
    // The places one cycle on, of a trace without unknown flags.
    pub fn cycle(&mut self, hit_cycles: u32) {
        cycle(self.row_mut(), hit_cycles);
    }

    // Cycles from the start until all have left, and at most `limit` of them.
    pub fn run(&mut self, limit: u32, hit_cycles: u32) -> Ran {
        self.start();
        for cycles in 0..limit {
            if self.all_left() {
                return Ran { cycles, left: true };
            }
            self.cycle(hit_cycles);
        }
        Ran {
            cycles: limit,
            left: self.all_left(),
        }
    }

    // "The sum over all instructions of 6 plus the three latencies", but "with h in place of the data
    // latency on hits" (document 02, F-4).
    pub fn bound(&self, hit_cycles: u32) -> u32 {
        let all = self.row().iter();
        all.fold(0, |sum, s| with_latencies(sum, s, hit_cycles))
    }

    // The finishing time of a trace without unknown flags, if all have left by the bound.
    pub fn finish(&mut self, hit_cycles: u32) -> Option<u32> {
        let ran = self.run(self.bound(hit_cycles), hit_cycles);
        ran.left.then_some(ran.cycles)
    }
}
