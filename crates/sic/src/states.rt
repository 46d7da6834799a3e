// Step and Run, and the starting state.
ghost use Rattle.std.specs.Prelude.{◌≡◌};
ghost use Rattle.machine.specs.State.{start};
ghost use Rattle.pipeline.specs.Step.{step_answer};
ghost use Rattle.running.specs.Run.{run_answer};

use machine::State;
use pipeline::Stepped;
use running::Ran;

#[unsafe(no_mangle)]
pub extern "C" fn sic_start() -> State
    ensures { result ≡ start }
{
    State::start()
}

#[unsafe(no_mangle)]
pub extern "C" fn sic_step(body: &[u8], s: State, hit_cycles: u32) -> Stepped
    ensures { result ≡ step_answer body.now s hit_cycles }
{
    Stepped::of(s, pipeline::step(body, s, hit_cycles))
}

// "A second form advances the state in the caller's own storage": what the step by value gives is
// stored. On a refusal the state stays, and the refusal's number is given.
#[unsafe(no_mangle)]
pub extern "C" fn sic_advance(s: &mut State, body: &[u8], hit_cycles: u32) -> u32
    ensures { (result ≡ (step_answer body.now s.old hit_cycles).refusal) × (s.new ≡ (step_answer body.now s.old hit_cycles).state) }
{
    match pipeline::step(body, *s, hit_cycles) {
        Ok(next) => {
            *s = next;
            0
        }
        Err(refusal) => refusal.number(),
    }
}

#[unsafe(no_mangle)]
pub extern "C" fn sic_run(body: &[u8], limit: u32, hit_cycles: u32) -> Ran
    ensures { result ≡ run_answer body.now limit hit_cycles }
{
    running::run(body, limit, hit_cycles).into()
}
