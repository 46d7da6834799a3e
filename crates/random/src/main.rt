// Random traces: the engine's calls against the second model, from a fixed seed.
#![tactic(auto)]

mod case;
mod files;
mod pairs;
mod print;
mod rounds;
mod rows;
mod tally;

use arrayvec::CapacityError;
use case::Case;
use files::long_ones_agree;
use print::print;
use random_traces::{Dice, Draft, Style, trace};
use std::io;
use tally::Tally;

const TRACES: u32 = 40000;

// Of the traces every fourth has unknown flags, and a few have the longest latencies. By the dice one of
// four has data latencies near h.
fn style_of(k: u32, dice: Dice) -> Style {
    let long = k % 4001 == 0;
    let d = dice.rolled();
    Style {
        unknown: k % 4 == 3 && !long,
        long,
        hit_cycles: d.hit_cycles(),
        near: d.part(20, 4) == 0,
    }
}

impl Tally {
    // The trace by itself.
    fn timed_turn(&mut self, draft: &Draft, style: Style) {
        let case = Case::of(draft, style.hit_cycles);
        if case.is_declined() {
            self.declined_turn(draft, style.hit_cycles);
        } else if style.long {
            self.long_turn(&case);
        } else if style.unknown {
            self.unknown_turn(&case, draft.dice);
        } else {
            self.settled_turn(draft, style.hit_cycles);
        }
    }

    // Gives the dice after the trace.
    fn turn(&mut self, dice: Dice, k: u32) -> Result<Dice, CapacityError> {
        self.traces.add_one();
        let style = style_of(k, dice);
        let draft = trace(dice, style);
        self.timed_turn(&draft, style);
        self.file_turn(&draft);
        self.refusal_turn(&draft, style.hit_cycles)?;
        Ok(draft.dice)
    }

    // It stops at the first trace at which the two differ.
    fn all_turns(&mut self) -> Result<(), CapacityError> {
        let mut dice = Dice::SEED;
        for k in 0..TRACES {
            dice = self.turn(dice, k)?;
            if self.differing.is_some() {
                break;
            }
        }
        Ok(())
    }
}

fn main(rt: HostRuntime) -> io::Result<()> {
    let mut tally = Tally::default();
    let misfit = |_| io::Error::other("a file that does not fit its room");
    tally.all_turns().map_err(misfit)?;
    print(&rt, &tally)?;
    if long_ones_agree() {
        println!(rt; "and on what is too long to open or to write")?;
    }
    Ok(())
}
