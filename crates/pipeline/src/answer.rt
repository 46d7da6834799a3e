// Step's answer as C takes it: the refusal's number with the given state, or 0 with the state one cycle on.
ghost use Rattle.std.specs.Prelude.{◌≡◌};
ghost use Rattle.pipeline.specs.Step.{stepped};

use machine::State;
use record::Refusal;

#[repr(C)]
#[derive(Clone, Copy, Drop)]
pub struct Stepped {
    pub refusal: u32,
    pub state: State,
}

impl Stepped {
    // What Step gave of the state.
    pub fn of(given: State, answer: Result<State, Refusal>) -> Stepped
        ensures { result ≡ stepped given answer }
    {
        match answer {
            Ok(state) => Stepped { refusal: 0, state },
            Err(refusal) => Stepped {
                refusal: refusal.number(),
                state: given,
            },
        }
    }
}
