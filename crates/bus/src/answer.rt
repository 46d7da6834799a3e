// The answer as C takes it: the refusal's number with zeros, or 0 with what the call gives.
ghost use Rattle.std.specs.Prelude.{◌≡◌};
ghost use Rattle.bus.specs.Answers.{time_on_bus};

use crate::call::BusTime;
use record::Refusal;

#[repr(C)]
#[derive(Clone, Copy, Drop)]
pub struct TimeOnBus {
    pub refusal: u32,
    pub accesses: u32,
    pub time: u32,
}

impl From<Result<BusTime, Refusal>> for TimeOnBus {
    ghost from_gives = { λ answer given. given ≡ time_on_bus answer };

    fn from(answer: Result<BusTime, Refusal>) -> TimeOnBus {
        match answer {
            Ok(bus) => TimeOnBus {
                refusal: 0,
                accesses: bus.accesses,
                time: bus.time,
            },
            Err(refusal) => TimeOnBus {
                refusal: refusal.number(),
                accesses: 0,
                time: 0,
            },
        }
    }
}
