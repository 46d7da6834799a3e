// A trace as a call is given it, and what the calls answer to it.
use machine::State;
use model::{Core, Times, check_settled, check_timed};
use pipeline::step;
use random_traces::{Draft, number_of};
use running::run;
use timing::{Extremes, alike, best_worst, finish, margin};

// A body, and how many cycles a data hit takes.
#[derive(Clone, Copy)]
pub struct Case<'a> {
    pub body: &'a [u8],
    pub hit_cycles: u32,
}

// A trace of at most 12 instructions without unknown flags: by the model its starting state, and its finishing time.
#[derive(Clone, Copy)]
pub struct Settled<'a> {
    pub case: Case<'a>,
    pub core: Core<12>,
    pub time: u32,
}

impl<'a> Case<'a> {
    pub fn of(draft: &'a Draft, hit_cycles: u32) -> Case<'a> {
        Case {
            body: draft.body(),
            hit_cycles,
        }
    }

    pub fn settled(self) -> Option<Settled<'a>> {
        let core = Core::<12>::of(self.body).ok()?;
        let mut run = core;
        Some(Settled {
            case: self,
            core,
            time: run.finish(self.hit_cycles)?,
        })
    }
}

impl Case<'_> {
    // The model's best and worst time, over all settlings.
    pub fn times(&self) -> Option<Times> {
        model::bounds::<12>(self.body, self.hit_cycles)
    }

    pub fn is_declined(&self) -> bool {
        model::check_hits(self.body, self.hit_cycles).is_err()
    }

    // The model's times are the least and the greatest over all settlings.
    pub fn is_within(&self, times: Times) -> bool {
        let Times { best, worst } = times;
        best_worst(self.body, self.hit_cycles) == Ok(Extremes { best, worst })
    }

    // The deadline less the worst time, with its sign.
    pub fn keeps(&self, deadline: u32, worst: u32) -> bool {
        margin(self.body, deadline, self.hit_cycles) == Ok(model::margin(deadline, worst))
    }

    // What declines it in each call that takes no unknown flag, and in each other one.
    fn settled_refusals(&self) -> [u32; 3] {
        [
            number_of(&finish(self.body, self.hit_cycles)),
            number_of(&run(self.body, 7, self.hit_cycles)),
            number_of(&step(self.body, State::start(), self.hit_cycles)),
        ]
    }

    fn timed_refusals(&self) -> [u32; 2] {
        [
            number_of(&best_worst(self.body, self.hit_cycles)),
            number_of(&margin(self.body, 7, self.hit_cycles)),
        ]
    }

    // As a number, which is all that the engine's refusals and the model's have in common.
    fn alike_refusal(&self, second: &Case) -> u32 {
        number_of(&alike(self.body, second.body, self.hit_cycles))
    }

    // Each call answers to a body that may be broken with the model's refusal. Alike names what declines the first
    // body, then what declines the second.
    pub fn is_refused_as_told(&self, lawful: &Case) -> bool {
        let settled = check_settled(self.body, self.hit_cycles);
        let timed = check_timed(self.body, self.hit_cycles);
        let other = check_settled(lawful.body, self.hit_cycles);
        self.settled_refusals() == [number_of(&settled); 3]
            && self.timed_refusals() == [number_of(&timed); 2]
            && self.alike_refusal(lawful) == number_of(&settled.and(other))
            && lawful.alike_refusal(self) == number_of(&other.and(settled))
    }
}

impl Settled<'_> {
    pub fn finishes(&self) -> bool {
        finish(self.case.body, self.case.hit_cycles) == Ok(self.time)
    }

    // Alike says whether the two finish at one time.
    pub fn is_alike(&self, other: &Settled) -> bool {
        let answer = alike(self.case.body, other.case.body, self.case.hit_cycles);
        answer == Ok(self.time == other.time)
    }
}
