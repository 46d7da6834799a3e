// The call: "One call takes the file and a lent list of 32-bit numbers and fills its first T places. Each equals
// what opening and timing that trace alone gives; the rest of the list keeps its values" (document 02, F-2).
use super::refusals::{body_of, check_job};
use model::{Core, Flag, MOST, Refusal};

// The worst time of an accepted body over all settlings, each of which is run, where at most `few` of its flags
// are unknown. With more it is the time with every unknown flag a miss, as in `model::all_hits_all_misses`: that no
// other settling is slower is the engine's claim, and not counted out here.
fn worst<const N: usize>(
    core: &mut Core<N>,
    body: &[u8],
    few: u32,
    hit_cycles: u32,
) -> Option<u32> {
    if model::unknowns(body) > few {
        return model::finish_with_all_in(core, body, Flag::Miss, hit_cycles);
    }
    model::bounds_in(core, body, hit_cycles).map(|times| times.worst)
}

// "What opening and timing that trace alone gives"; none where Open declines, or where the trace has not left by
// document 01's bound.
fn worst_alone<const N: usize>(
    core: &mut Core<N>,
    file: &[u8],
    trace: u32,
    few: u32,
    hit_cycles: u32,
) -> Option<u32> {
    worst(core, body_of(file, trace)?, few, hit_cycles)
}

// The answer is T, with the worst time of each trace, of at most N instructions, in the first T places of the list. "A
// refusal .. leaves lent memory unaltered" (document 01): nothing is stored before every refusal is ruled out. A trace
// with more than `few` unknown flags has the time with every one a miss, so that a file of sixteen traces with many
// unknown flags can be run; one without a time leaves its place as it was.
pub fn worst_times<const N: usize>(
    file: &[u8],
    times: &mut [u32],
    few: u32,
    hit_cycles: u32,
) -> Result<u32, Refusal> {
    let traces = check_job(file, times.len(), hit_cycles)?;
    if N > MOST {
        return Ok(traces);
    }
    let mut core = Core::<N>::of(b"")?;
    for (trace, place) in (0..traces).zip(times) {
        if let Some(time) = worst_alone(&mut core, file, trace, few, hit_cycles) {
            *place = time;
        }
    }
    Ok(traces)
}
