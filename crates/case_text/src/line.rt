// What a line gives: numbers, a state, counts, and bytes.
ghost use Rattle.std.specs.Prelude.{◌≤◌, length};

use crate::words::{Words, find};
use deadlines::deadline_of;
use little_endian::put_half;
use machine::{Slot, State};

#[derive(Clone, Copy)]
pub struct Line<'a> {
    pub text: &'a [u8],
}

// 1 if the slot is filled, its index, its count.
fn next_slot(words: &mut Words<'_>) -> Slot {
    Slot {
        filled: words.number() == 1,
        index: words.number(),
        count: words.number(),
    }
}

impl<'a> Line<'a> {
    // The k-th number behind the line's word, 0 where there is none; with k = 0, the one behind the
    // word's first letter.
    pub fn number(self, k: usize) -> u32 {
        Words::from(self.text, 1)
            .nth(k)
            .and_then(deadline_of)
            .unwrap_or(0)
    }

    // The words of the answer, those behind the `=`.
    pub(crate) fn answer(self) -> Words<'a> {
        let equals = find(self.text, 0, b'=');
        Words::from(self.text, equals + 1)
    }

    // Numbers 2 to 20: the fetched count, and the slots IF, ID, EX, MEM, ST and WB.
    pub fn state(self) -> State {
        let mut words = Words::from(self.text, 1);
        let _ = words.nth(1);
        State {
            fetched: words.number(),
            IF: next_slot(&mut words),
            ID: next_slot(&mut words),
            EX: next_slot(&mut words),
            MEM: next_slot(&mut words),
            ST: next_slot(&mut words),
            WB: next_slot(&mut words),
        }
    }

    // The numbers from 5 on, of which number 4 says how many there are, at the start of the room that is
    // lent; none where there is no room for them.
    pub fn counts(self, room: &'a mut [u16]) -> &'a [u16]
        ensures { length result.now ≤ length room.old }
    {
        let mut words = Words::from(self.text, 1);
        let _ = words.nth(3);
        let Some(counts) = room.get_mut(..words.number() as usize) else {
            return &[];
        };
        for count in counts.iter_mut() {
            *count = (words.number() % 65536) as u16;
        }
        counts
    }

    // p AT END PAIRS: pairs of bytes from AT to END, these again and again
    pub fn lay(self, out: &mut [u8]) {
        let mut words = Words::from(self.text, 2);
        let at = words.number() as usize;
        let end = words.number() as usize;
        if end + 2 > out.len() {
            return;
        }
        let pairs = words;
        for to in (at..end).step_by(2) {
            put_half(out, to, words.number() % 65536);
            if words.is_done() {
                words = pairs;
            }
        }
    }
}
