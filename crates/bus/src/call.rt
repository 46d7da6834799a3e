// The public call.
ghost use Rattle.std.specs.Prelude.{◌≡◌};
ghost use Rattle.bus.specs.Answers.{time_on_bus, bus_answer};

use crate::counting::count_accesses;
use acceptance::check_timed;
use machine::Flag;
use passing::finish_settled;
use record::Refusal;

// How many accesses are counted, and the worst time with the waits for them.
#[derive(Clone, Copy, Debug, PartialEq, Eq, Drop)]
pub struct BusTime {
    pub accesses: u32,
    pub time: u32,
}

// The worst time, plus the longest wait for each access marked miss or unknown.
pub fn bus_time(body: &[u8], wait: u16, hit_cycles: u32) -> Result<BusTime, Refusal>
    ensures { time_on_bus result ≡ bus_answer body.now wait hit_cycles }
{
    check_timed(body, hit_cycles)?;
    let accesses = count_accesses(body, wait)?;
    let worst = finish_settled(body, Flag::Miss, hit_cycles);
    Ok(BusTime {
        accesses,
        time: worst + accesses * wait as u32,
    })
}
