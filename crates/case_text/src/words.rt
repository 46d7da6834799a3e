// The words of a text, which single spaces part, and the numbers that they are.
ghost use Rattle.std.specs.Prelude.{◌≡◌, ◌≢◌, ℕ, ◌+◌, ◌-◌, ◌<◌, ◌≤◌, length, slice_index, ◌↔◌, IsTrue};
ghost use Rattle.std.specs.Iterator.{at_most};

use deadlines::deadline_of;

// Where the byte stands first, from an index on, or the length where it does not. The library's `position`
// counts from where it starts and gives no end.
pub fn find(s: &[u8], from: usize, byte: u8) -> usize
    ensures within { result ≤ length s.now }
    ensures behind { from ≤ length s.now → from ≤ result }
    ensures before { (k : ℕ) → from ≤ k → k < result → slice_index s.now k ≢ byte }
    ensures found { result < length s.now → slice_index s.now result ≡ byte }
{
    for i in from..s.len() {
        if s[i] == byte {
            return i;
        }
    }
    s.len()
}

// The words from an index on. `split` would do, but a closure's type has no name, so that no struct
// and no result can hold what it gives.
#[derive(Clone, Copy)]
pub(crate) struct Words<'a> {
    text: &'a [u8],
    at: usize,
}

impl<'a> Words<'a> {
    pub(crate) fn from(text: &'a [u8], at: usize) -> Words<'a> {
        Words { text, at }
    }

    // Whether the last word has been given.
    pub(crate) fn is_done(&self) -> bool
        ensures { IsTrue result ↔ (length self.now.text.now < self.now.at) }
    {
        self.at > self.text.len()
    }

    // The next word's number, written as a deadline is; 0 where it is none, and behind the last word.
    pub(crate) fn number(&mut self) -> u32 {
        self.next().and_then(deadline_of).unwrap_or(0)
    }
}

impl<'a> Iterator for Words<'a> {
    type Item = &'a [u8];

    ghost remaining = { λ s. at_most (length s.text.now + 1 - s.at) };

    fn next(&mut self) -> Option<&'a [u8]> {
        if self.is_done() {
            return None;
        }
        let from = self.at;
        let end = find(self.text, from, b' ');
        self.at = end + 1;
        Some(&self.text[from..end])
    }
}
