// The public calls. `answers` has what they give as C takes it.
ghost use Rattle.std.specs.Prelude.{◌≡◌, pos, ◌-ℤ◌};
ghost use Rattle.timing.specs.Answers.{
  finished,
  extremes,
  margin_left,
  likeness,
  finish_answer,
  best_worst_answer,
  margin_answer,
  alike_answer,
};

use acceptance::{check_settled, check_timed};
use machine::Flag;
use passing::finish_settled;
use record::refusal::Refusal;

// The least and the greatest finishing time of all settlings.
#[derive(Clone, Copy, Debug, PartialEq, Eq, Drop)]
pub struct Extremes {
    pub best: u32,
    pub worst: u32,
}

// The finishing time of a body without unknown flags.
pub fn finish(body: &[u8], hit_cycles: u32) -> Result<u32, Refusal>
    ensures { finished result ≡ finish_answer body.now hit_cycles }
{
    check_settled(body, hit_cycles)?;
    Ok(finish_settled(body, Flag::Hit, hit_cycles))
}

pub fn best_worst(body: &[u8], hit_cycles: u32) -> Result<Extremes, Refusal>
    ensures { extremes result ≡ best_worst_answer body.now hit_cycles }
{
    check_timed(body, hit_cycles)?;
    Ok(Extremes {
        best: finish_settled(body, Flag::Hit, hit_cycles),
        worst: finish_settled(body, Flag::Miss, hit_cycles),
    })
}

fn difference(a: u32, b: u32) -> i64
    ensures { result ≡ pos a -ℤ pos b }
{
    a as i64 - b as i64
}

// The deadline minus the worst time.
pub fn margin(body: &[u8], deadline: u32, hit_cycles: u32) -> Result<i64, Refusal>
    ensures { margin_left result ≡ margin_answer body.now deadline hit_cycles }
{
    check_timed(body, hit_cycles)?;
    let worst = finish_settled(body, Flag::Miss, hit_cycles);
    Ok(difference(deadline, worst))
}

// Whether two bodies without unknown flags have equal finishing times. Neither is timed before both are
// checked.
pub fn alike(first: &[u8], second: &[u8], hit_cycles: u32) -> Result<bool, Refusal>
    ensures { likeness result ≡ alike_answer first.now second.now hit_cycles }
{
    check_settled(first, hit_cycles)?;
    check_settled(second, hit_cycles)?;
    let time1 = finish_settled(first, Flag::Hit, hit_cycles);
    let time2 = finish_settled(second, Flag::Hit, hit_cycles);
    Ok(time1 == time2)
}
