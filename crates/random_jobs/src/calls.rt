// A whole job in one call, by the engine and by the second model, each with a list of the same former values.
ghost use Rattle.std.specs.Prelude.{◌≤◌};

use crate::lists::{List, PLACES, same_from};
use crate::tally::Tally;
use random_traces::agree;
use record::Refusal;
use whole_job::worst_times;

// No trace has more unknown flags, so that the model runs every settling.
const ALL_FLAGS: u32 = 8192;

// A file that was made of so many traces, and how many cycles a data hit takes.
#[derive(Clone, Copy)]
pub struct Job<'a> {
    pub file: &'a [u8],
    pub traces: u32,
    pub hit_cycles: u32,
}

// The engine's answer, whether the model's differs, in a place of the list or beyond it too, and how many of all
// places, and of those behind the first T, have their former values.
#[derive(Clone, Copy)]
struct Outcome {
    answer: Result<u32, Refusal>,
    differs: bool,
    same: usize,
    behind: usize,
    ghost among_all: { same ≤ 20 },
}

impl Job<'_> {
    pub fn by_engine(&self, times: &mut [u32]) -> Result<u32, Refusal> {
        worst_times(self.file, times, self.hit_cycles)
    }

    // The second model's call, with room for traces of at most four records.
    fn by_model(&self, times: &mut [u32]) -> Result<u32, model::Refusal> {
        model_job::worst_times::<4>(self.file, times, ALL_FLAGS, self.hit_cycles)
    }

    // The list is the first n places.
    fn outcome(&self, n: usize, former: &List) -> Outcome {
        let n = n.min(PLACES);
        let mut ours = *former;
        let mut theirs = *former;
        let answer = self.by_engine(&mut ours[..n]);
        let told = self.by_model(&mut theirs[..n]);
        Outcome {
            answer,
            differs: !agree(&answer, &told, |a, b| a == b) || ours != theirs,
            same: same_from(&ours, former, 0),
            behind: same_from(&ours, former, answer.unwrap_or(0) as usize),
        }
    }
}

impl Outcome {
    // The places are as they have to be for a file made of so many traces: none of the first has its former value, and
    // every other one has. A declined call alters no place.
    fn is_right(&self, traces: u32) -> bool {
        match self.answer {
            Ok(filled) => {
                filled == traces
                    && self.same == self.behind
                    && PLACES - self.same == traces as usize
            }
            Err(_) => self.same == PLACES,
        }
    }
}

impl Tally {
    // The list is the first n of 20 places with these values.
    pub fn call(&mut self, job: &Job, n: usize, former: &List) {
        let outcome = job.outcome(n, former);
        self.answers.add_one();
        self.differ.add_one_if(outcome.differs);
        self.wrong.add_one_if(!outcome.is_right(job.traces));
        self.seen.add(&outcome.answer);
        if outcome.answer.is_err() {
            self.unaltered.add(outcome.same as u64);
        } else {
            self.times.add((PLACES - outcome.same) as u64);
            self.kept.add(outcome.behind as u64);
        }
    }

    // With lists of just enough places, of three more, and of one too few.
    pub fn calls_on_every_list(&mut self, job: &Job, former: &List) {
        let all = job.traces as usize;
        self.call(job, all, former);
        self.call(job, all + 3, former);
        if let Some(short) = all.checked_sub(1) {
            self.call(job, short, former);
        }
    }
}
