// The answers as C takes them: the refusal's number with zeros, or no, for the rest, or 0 with what the
// call gives.
ghost use Rattle.std.specs.Prelude.{◌≡◌};
ghost use Rattle.timing.specs.Answers.{finished, extremes, margin_left, likeness};

use crate::calls::Extremes;
use record::refusal::Refusal;

#[repr(C)]
#[derive(Clone, Copy, Drop)]
pub struct Finished {
    pub refusal: u32,
    pub time: u32,
}

#[repr(C)]
#[derive(Clone, Copy, Drop)]
pub struct BestAndWorst {
    pub refusal: u32,
    pub best: u32,
    pub worst: u32,
}

// Below 0 the deadline is missed; 0 is met exactly.
#[repr(C)]
#[derive(Clone, Copy, Drop)]
pub struct DeadlineMargin {
    pub refusal: u32,
    pub margin: i64,
}

#[repr(C)]
#[derive(Clone, Copy, Drop)]
pub struct Likeness {
    pub refusal: u32,
    pub alike: bool,
}

impl From<Result<u32, Refusal>> for Finished {
    ghost from_gives = { λ answer given. given ≡ finished answer };

    fn from(answer: Result<u32, Refusal>) -> Finished {
        match answer {
            Ok(time) => Finished { refusal: 0, time },
            Err(refusal) => Finished {
                refusal: refusal.number(),
                time: 0,
            },
        }
    }
}

impl From<Result<Extremes, Refusal>> for BestAndWorst {
    ghost from_gives = { λ answer given. given ≡ extremes answer };

    fn from(answer: Result<Extremes, Refusal>) -> BestAndWorst {
        match answer {
            Ok(times) => BestAndWorst {
                refusal: 0,
                best: times.best,
                worst: times.worst,
            },
            Err(refusal) => BestAndWorst {
                refusal: refusal.number(),
                best: 0,
                worst: 0,
            },
        }
    }
}

impl From<Result<i64, Refusal>> for DeadlineMargin {
    ghost from_gives = { λ answer given. given ≡ margin_left answer };

    fn from(answer: Result<i64, Refusal>) -> DeadlineMargin {
        match answer {
            Ok(margin) => DeadlineMargin { refusal: 0, margin },
            Err(refusal) => DeadlineMargin {
                refusal: refusal.number(),
                margin: 0,
            },
        }
    }
}

impl From<Result<bool, Refusal>> for Likeness {
    ghost from_gives = { λ answer given. given ≡ likeness answer };

    fn from(answer: Result<bool, Refusal>) -> Likeness {
        match answer {
            Ok(alike) => Likeness { refusal: 0, alike },
            Err(refusal) => Likeness {
                refusal: refusal.number(),
                alike: false,
            },
        }
    }
}
