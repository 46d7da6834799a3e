// The engine's answer against the second model's.
use bus::{BusTime, bus_time};
use model_bus::check_bus;
use random_traces::{Answers, Count, agree};
use record::Refusal;

// More unknown flags have more settlings than the second model can run for every trace.
const FEW: u32 = 4;

// What is asked: the time of a trace on a bus with waits up to this one.
#[derive(Clone, Copy)]
pub struct Call<'a> {
    pub body: &'a [u8],
    pub wait: u16,
    pub hit_cycles: u32,
}

// Answers compared; their refusals; those that one more cycle would have made 15; those with h above 0 that were not
// refused; those on which engine and model differ.
#[derive(Clone, Copy, Debug, Default)]
pub struct Calls {
    pub compared: Count,
    pub seen: Answers,
    pub within: Count,
    pub with_hits: Count,
    pub wrong: Count,
}

impl Call<'_> {
    pub fn by_engine(&self) -> Result<BusTime, Refusal> {
        bus_time(self.body, self.wait, self.hit_cycles)
    }

    // The second model's answer for a trace of at most 12 instructions.
    fn by_model(&self) -> Result<model_bus::BusTime, model::Refusal> {
        model_bus::bus_time::<12>(self.body, u32::from(self.wait), self.hit_cycles)
    }

    // The answer is not 15, and would be for one cycle more.
    fn is_just_within(&self) -> bool {
        let wait = u32::from(self.wait);
        let more = check_bus(self.body, wait + 1, self.hit_cycles);
        check_bus(self.body, wait, self.hit_cycles).is_ok()
            && matches!(more, Err(model::Refusal::LongWait))
    }
}

impl Calls {
    pub fn add(&mut self, call: &Call) {
        if model::unknowns(call.body) > FEW {
            return;
        }
        let answer = call.by_engine();
        let told = call.by_model();
        let same = agree(&answer, &told, |a, b| {
            a.accesses == b.accesses && Some(a.time) == b.time
        });
        self.compared.add_one();
        self.seen.add(&told);
        self.within.add_one_if(call.is_just_within());
        self.with_hits
            .add_one_if(told.is_ok() && call.hit_cycles > 0);
        self.wrong.add_one_if(!same);
    }
}
