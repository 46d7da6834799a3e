// Every row of a trace: what Run gives at every limit and what Step makes of each state, against the
// model's places cycle after cycle.
use crate::case::Settled;
use crate::tally::Tally;
use machine::{Slot, State};
use model::{Core, Stage};
use pipeline::step;
use running::{Progress, run};

fn slot_of(core: &Core<12>, stage: Stage) -> Slot {
    core.in_stage(stage)
        .map_or(Slot::EMPTY, |s| Slot::holding(s.index as u32, s.count))
}

fn state_of(core: &Core<12>) -> State {
    State {
        fetched: core.fetched() as u32,
        IF: slot_of(core, Stage::IF),
        ID: slot_of(core, Stage::ID),
        EX: slot_of(core, Stage::EX),
        MEM: slot_of(core, Stage::MEM),
        ST: slot_of(core, Stage::ST),
        WB: slot_of(core, Stage::WB),
    }
}

impl Settled<'_> {
    // Run gives the model's row after so many cycles; past the finishing time the run has stopped there.
    fn runs_to(&self, cycles: u32, row: &Core<12>) -> bool {
        let told = Progress {
            state: state_of(row),
            cycles: cycles.min(self.time),
            left: row.all_left(),
        };
        run(self.case.body, cycles, self.case.hit_cycles) == Ok(told)
    }

    // Step gives the model's next row.
    fn steps_to(&self, state: State, next: &Core<12>) -> bool {
        step(self.case.body, state, self.case.hit_cycles) == Ok(state_of(next))
    }
}

impl Tally {
    // Rows 0 to one past the finishing time, each by Run, and each but the first by Step of the one before.
    pub fn rows(&mut self, settled: &Settled) {
        let mut row = settled.core;
        for cycles in 0..=settled.time {
            let ran = settled.runs_to(cycles, &row);
            let state = state_of(&row);
            row.cycle(settled.case.hit_cycles);
            if !ran || !settled.steps_to(state, &row) {
                return self.note(false);
            }
            self.rows.add_one();
        }
        self.note(settled.runs_to(settled.time.saturating_add(1), &row));
    }
}
