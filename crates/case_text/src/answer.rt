// What came of a call, held against what its line tells behind the `=`.
use crate::line::Line;
use deadlines::deadline_of;
use machine::State;

impl Line<'_> {
    // The first number of the answer.
    pub fn first(self) -> Option<u32> {
        self.answer().next().and_then(deadline_of)
    }

    // The line tells these numbers, then those, and no more.
    pub fn says_both(self, these: &[u32], those: &[u32]) -> bool {
        self.answer()
            .map(deadline_of)
            .eq(these.iter().chain(those).map(|number| Some(*number)))
    }

    // The line tells these numbers, and no more.
    pub fn says(self, numbers: &[u32]) -> bool {
        self.says_both(numbers, &[])
    }

    // refusal, how far the margin is above 0, how far below
    pub fn says_margin(self, refusal: u32, margin: i64) -> bool {
        let mut words = self.answer();
        let _ = words.next();
        let above = words.number();
        let below = words.number();
        self.says(&[refusal, above, below]) && i64::from(above) - i64::from(below) == margin
    }

    // refusal, cycles, 1 if all have left, fetched, and of each slot 1 if it is filled, its index, its count
    pub fn says_state(self, refusal: u32, cycles: u32, left: bool, state: State) -> bool {
        let slots = [state.IF, state.ID, state.EX, state.MEM, state.ST, state.WB].map(|slot| [
            u32::from(slot.filled),
            slot.index,
            slot.count,
        ]);
        self.says_both(
            &[refusal, cycles, u32::from(left), state.fetched],
            slots.as_flattened(),
        )
    }
}
