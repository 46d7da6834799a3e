// The calls as one of the two answers them, and whether that is what a case's line tells.
use crate::case::{Call, Case};
use bus::BusTime;
use machine::State;
use running::Progress;
use std::array;
use std::ops::Range;
use timing::Extremes;

// A refusal's number, as lines tell it.
#[derive(Clone, Copy)]
pub struct Refused(pub u32);

pub trait Calls {
    // Whether a body is accepted, and whether one without unknown flags is.
    fn check(case: &Case<'_>) -> Result<(), Refused>;

    fn check_settled(case: &Case<'_>) -> Result<(), Refused>;

    fn run(case: &Case<'_>) -> Result<Progress, Refused>;

    fn finish(case: &Case<'_>) -> Result<u32, Refused>;

    fn best_worst(case: &Case<'_>) -> Result<Extremes, Refused>;

    fn bus_time(case: &Case<'_>) -> Result<BusTime, Refused>;

    fn alike(case: &Case<'_>) -> Result<bool, Refused>;
    // Fills the first places of the list, and says how many.
    fn worst_times(case: &Case<'_>, list: &mut [u32]) -> Result<u32, Refused>;

    // Whether the line tells what the call answers, where the two answer with more or with less.
    fn opens(case: &Case<'_>) -> bool;

    fn writes(case: &Case<'_>) -> bool;

    fn views(case: &Case<'_>) -> bool;

    fn steps(case: &Case<'_>) -> bool;

    fn margins(case: &Case<'_>) -> bool;
}

// The places of a job's list, and what the first holds before the call, the next one more, and so on:
// no case has these as times.
const PLACES: usize = 20;

const FORMER: u32 = 900000;

impl Case<'_> {
    // refusal, two numbers, zeros on a refusal
    pub fn tells(&self, answer: Result<(u32, u32), Refused>) -> bool {
        let told = match answer {
            Ok((one, two)) => [0, one, two],
            Err(Refused(number)) => [number, 0, 0],
        };
        self.line.says(&told)
    }

    // run LIMIT = refusal, cycles, 1 if all have left, state; the starting state on a refusal
    fn tells_run(&self, answer: Result<Progress, Refused>) -> bool {
        match answer {
            Ok(ran) => self.line.says_state(0, ran.cycles, ran.left, ran.state),
            Err(Refused(number)) => self.line.says_state(number, 0, false, State::start()),
        }
    }

    // job PLACES = refusal, traces, and every place of the list, of which PLACES are lent
    fn tells_list<C: Calls>(&self) -> bool {
        let mut list: [u32; PLACES] = array::from_fn(|i| FORMER + i as u32);
        let Some(lent) = list.get_mut(..self.argument as usize) else {
            return false;
        };
        let start = match C::worst_times(self, lent) {
            Ok(traces) => [0, traces],
            Err(Refused(number)) => [number, 0],
        };
        self.line.says_both(&start, &list)
    }

    // Whether the line tells what the call answers.
    pub fn comes_out<C: Calls>(&self) -> bool {
        match self.call {
            Call::Open => C::opens(self),
            Call::Write => C::writes(self),
            Call::View => C::views(self),
            Call::Step => C::steps(self),
            Call::Margin => C::margins(self),
            Call::Job => self.tells_list::<C>(),
            Call::Run => self.tells_run(C::run(self)),
            Call::Check => {
                let refusal = number(C::check(self));
                self.line
                    .says(&[refusal, number(C::check_settled(self)), 0])
            }
            Call::Finish => self.tells(C::finish(self).map(|time| (time, 0))),
            Call::Times => self.tells(C::best_worst(self).map(|found| (found.best, found.worst))),
            Call::Bus => self.tells(C::bus_time(self).map(|found| (found.accesses, found.time))),
            Call::Alike => self.tells(C::alike(self).map(|alike| (u32::from(alike), 0))),
        }
    }
}

// The number of a refusal, 0 where there is none.
pub fn number(answer: Result<(), Refused>) -> u32 {
    match answer {
        Ok(()) => 0,
        Err(Refused(number)) => number,
    }
}

// The parts of a file and the indices of a trace fit.
pub fn index(n: usize) -> u32 {
    u32::try_from(n).unwrap_or(u32::MAX)
}

// open TRACE DECLINED = refusal, start, end
pub fn part(found: Range<usize>) -> (u32, u32) {
    (index(found.start), index(found.end))
}
