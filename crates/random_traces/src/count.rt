// What the programs count with.
use super::refusal::{Refusal, number_of};
use std::fmt;

// A number of times. None comes near to where it would stop.
#[derive(Clone, Copy, Debug, Default, PartialEq, Eq, PartialOrd, Ord)]
pub struct Count(u64);

impl Count {
    pub fn add(&mut self, n: u64) {
        self.0 = self.0.saturating_add(n);
    }

    pub fn add_one(&mut self) {
        self.add(1);
    }

    pub fn add_one_if(&mut self, yes: bool) {
        self.add(u64::from(yes));
    }
}

impl fmt::Display for Count {
    fn fmt<W: fmt::Write>(&self, f: &mut fmt::Formatter<W>) -> fmt::Result {
        self.0.fmt(f)
    }
}

// How often each refusal was the answer, by its number; 0 is that of no refusal.
#[derive(Clone, Copy, Debug, Default)]
pub struct Answers {
    by_number: [Count; 18],
}

impl Answers {
    pub fn add<T, R: Refusal>(&mut self, answer: &Result<T, R>) {
        if let Some(count) = self.by_number.get_mut(number_of(answer) as usize) {
            count.add_one();
        }
    }

    pub fn number_of(&self, refusal: usize) -> Count {
        self.by_number.get(refusal).copied().unwrap_or_default()
    }

    // Those that were given, with their numbers.
    pub fn for_each_refusal<E, F>(&self, mut line: F) -> Result<(), E>
    where
        F: FnMut(usize, Count) -> Result<(), E>,
        requires { F.IsAlwaysCallable line }
    {
        for (number, count) in self.by_number.iter().enumerate().skip(1) {
            if *count != Count::default() {
                line(number, *count)?;
            }
        }
        Ok(())
    }
}
