// Finish, Best and worst, Margin, Alike, and the time on a shared bus.
ghost use Rattle.std.specs.Prelude.{◌≡◌};
ghost use Rattle.bus.specs.Answers.{bus_answer};
ghost use Rattle.timing.specs.Answers.{
  finish_answer,
  best_worst_answer,
  margin_answer,
  alike_answer,
};

use bus::TimeOnBus;
use timing::{BestAndWorst, DeadlineMargin, Finished, Likeness};

#[unsafe(no_mangle)]
pub extern "C" fn sic_finish(body: &[u8], hit_cycles: u32) -> Finished
    ensures { result ≡ finish_answer body.now hit_cycles }
{
    timing::finish(body, hit_cycles).into()
}

#[unsafe(no_mangle)]
pub extern "C" fn sic_best_worst(body: &[u8], hit_cycles: u32) -> BestAndWorst
    ensures { result ≡ best_worst_answer body.now hit_cycles }
{
    timing::best_worst(body, hit_cycles).into()
}

#[unsafe(no_mangle)]
pub extern "C" fn sic_margin(body: &[u8], deadline: u32, hit_cycles: u32) -> DeadlineMargin
    ensures { result ≡ margin_answer body.now deadline hit_cycles }
{
    timing::margin(body, deadline, hit_cycles).into()
}

#[unsafe(no_mangle)]
pub extern "C" fn sic_alike(first: &[u8], second: &[u8], hit_cycles: u32) -> Likeness
    ensures { result ≡ alike_answer first.now second.now hit_cycles }
{
    timing::alike(first, second, hit_cycles).into()
}

#[unsafe(no_mangle)]
pub extern "C" fn sic_bus_time(body: &[u8], wait: u16, hit_cycles: u32) -> TimeOnBus
    ensures { result ≡ bus_answer body.now wait hit_cycles }
{
    bus::bus_time(body, wait, hit_cycles).into()
}
