// Run's answer as C takes it: the refusal's number with the starting state, or 0 with the run.
ghost use Rattle.std.specs.Prelude.{◌≡◌};
ghost use Rattle.running.specs.Run.{ran};

use crate::running::Progress;
use machine::State;
use record::Refusal;

#[repr(C)]
#[derive(Clone, Copy, Drop)]
pub struct Ran {
    pub refusal: u32,
    pub state: State,
    pub cycles: u32,
    pub left: bool,
}

impl From<Result<Progress, Refusal>> for Ran {
    ghost from_gives = { λ answer given. given ≡ ran answer };

    fn from(answer: Result<Progress, Refusal>) -> Ran {
        match answer {
            Ok(run) => Ran {
                refusal: 0,
                state: run.state,
                cycles: run.cycles,
                left: run.left,
            },
            Err(refusal) => Ran {
                refusal: refusal.number(),
                state: State::start(),
                cycles: 0,
                left: false,
            },
        }
    }
}
