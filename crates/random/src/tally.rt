// What is counted.
use random_traces::{Answers, Count};

// How many of each were compared, rows with what Run and what Step gives, and the number of the first trace at which
// the engine and the model differ. Of the traces, how many 17 declined, and how many were compared with h above 0. How
// often each refusal was the answer of Open, of Write, or to a body.
#[derive(Clone, Copy, Debug, Default)]
pub struct Tally {
    pub traces: Count,
    pub declined: Count,
    pub with_hits: Count,
    pub rows: Count,
    pub finishes: Count,
    pub bounds: Count,
    pub settlings: Count,
    pub margins: Count,
    pub likes: Count,
    pub pairs: Count,
    pub sums: Count,
    pub files: Count,
    pub damaged: Count,
    pub refusals: Count,
    pub seen: Answers,
    pub differing: Option<Count>,
}

impl Tally {
    // Notes the trace at hand where the two do not agree.
    pub fn note(&mut self, agree: bool) {
        if !agree && self.differing.is_none() {
            self.differing = Some(self.traces);
        }
    }
}
