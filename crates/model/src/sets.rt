// A set of numbers below 32, which registers and stages are, as the bits of a word: a set of the library would allocate.
#[derive(Clone, Copy, Default)]
pub struct Set(u32);

fn bit(number: u8) -> u32 {
    1u32.checked_shl(u32::from(number)).unwrap_or(0)
}

impl Set {
    pub fn has(self, number: u8) -> bool {
        self.0 & bit(number) != 0
    }

    pub fn insert(&mut self, number: u8) {
        self.0 |= bit(number);
    }

    // Every number of it is one of the other's too.
    pub fn is_within(self, other: Set) -> bool {
        self.0 & !other.0 == 0
    }
}
