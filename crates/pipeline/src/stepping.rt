// Step: the state one cycle on.
ghost use Rattle.std.specs.Prelude.{◌≡◌};
ghost use Rattle.pipeline.specs.Step.{stepped, step_answer};

use acceptance::check_settled;
use cycle::cycle;
use machine::State;
use orderly::orderly;
use record::{Refusal, count};
use standing::read_stages;

// The refusals in their order, else the state after the cycle.
pub fn step(body: &[u8], s: State, hit_cycles: u32) -> Result<State, Refusal>
    ensures { stepped s result ≡ step_answer body.now s hit_cycles }
{
    check_settled(body, hit_cycles)?;
    let n = count(body);
    let w = read_stages(body, s);
    if orderly(n, &w, hit_cycles) {
        return Ok(cycle(n, &w, hit_cycles));
    }
    Err(Refusal::NotOrderly)
}
