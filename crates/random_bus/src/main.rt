// Random traces on a shared bus, from a fixed seed: the engine's answer against the second model's, and the time
// given against every trace that it has to cover.
#![tactic(auto)]

mod bodies;
mod calls;
mod covers;
mod print;
mod rows;

use bodies::{damage, damaged_length, lengthen, make_sparse, wait_of};
use calls::{Call, Calls};
use covers::Covers;
use print::{print_calls, print_covers};
use random_traces::{Dice, Style, trace};
use std::io;

const TRACES: u32 = 8000;

#[derive(Clone, Copy, Debug, Default)]
struct Tally {
    calls: Calls,
    covers: Covers,
}

fn style_of(d: Dice) -> Style {
    Style {
        unknown: true,
        long: false,
        hit_cycles: d.hit_cycles(),
        near: d.part(20, 4) == 0,
    }
}

impl Tally {
    // The k-th trace: the time for a short wait against what it has to cover; the answer for a wait from the whole
    // range, to a body near the border of 15, and to the same damaged. Gives the dice after it.
    fn turn(&mut self, dice: Dice, k: u32) -> Dice {
        let hit_cycles = dice.rolled().hit_cycles();
        let draft = trace(dice, style_of(dice.rolled()));
        let length = draft.body().len();
        let mut bytes = draft.bytes;
        if k % 2 != 0 {
            make_sparse(&mut bytes, draft.dice);
        }
        self.covers.add(&bytes[..length], draft.dice, hit_cycles);
        let d = draft.dice.rolled();
        let wait = wait_of(d, hit_cycles);
        lengthen(&mut bytes, &draft, wait, d, k % 64 == 0);
        self.calls.add(&Call {
            body: &bytes[..length],
            wait,
            hit_cycles,
        });
        let d = d.rolled();
        damage(&mut bytes, d);
        self.calls.add(&Call {
            body: &bytes[..damaged_length(length, d)],
            wait,
            hit_cycles,
        });
        draft.dice
    }
}

fn main(rt: HostRuntime) -> io::Result<()> {
    let mut tally = Tally::default();
    let mut dice = Dice::SEED;
    for k in 0..TRACES {
        dice = tally.turn(dice, k);
    }
    print_calls(&rt, &tally.calls)?;
    print_covers(&rt, &tally.covers)
}
