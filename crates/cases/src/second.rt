// The second model's answers. It has no View and no Step, and writes no file: of these it says what
// declines them.
use crate::COUNTS;
use crate::calls::{Calls, Refused, index, part};
use crate::case::Case;
use bus::BusTime;
use machine::{Slot, State};
use model::{Core, MOST, Refusal, Stage, number_of};
use running::Progress;
use timing::Extremes;

// It runs bodies of at most N instructions, which are no more than MOST.
pub struct Second<const N: usize>;

// No line tells this: a trace has not left by the bound within which the model runs it, or there is more room than for
// any trace.
const UNENDED: Refused = Refused(u32::MAX);

// The most unknown flags of a trace of a job that are settled one by one.
const FEW: u32 = 6;

impl From<Refusal> for Refused {
    fn from(refusal: Refusal) -> Refused {
        Refused(refusal.number())
    }
}

fn slot_of<const N: usize>(core: &Core<N>, stage: Stage) -> Slot {
    match core.in_stage(stage) {
        Some(slot) => Slot::holding(index(slot.index), slot.count),
        None => Slot::EMPTY,
    }
}

fn state_of<const N: usize>(core: &Core<N>) -> State {
    State {
        fetched: index(core.fetched()),
        IF: slot_of(core, Stage::IF),
        ID: slot_of(core, Stage::ID),
        EX: slot_of(core, Stage::EX),
        MEM: slot_of(core, Stage::MEM),
        ST: slot_of(core, Stage::ST),
        WB: slot_of(core, Stage::WB),
    }
}

fn finish<const N: usize>(body: &[u8], hit_cycles: u32) -> Result<u32, Refused> {
    model::check_settled(body, hit_cycles)?;
    if N > MOST {
        return Err(UNENDED);
    }
    let mut core = Core::<N>::of(body)?;
    core.finish(hit_cycles).ok_or(UNENDED)
}

impl<const N: usize> Calls for Second<N> {
    fn check(case: &Case<'_>) -> Result<(), Refused> {
        Ok(model::check_body(case.body)?)
    }

    fn check_settled(case: &Case<'_>) -> Result<(), Refused> {
        Ok(model::check_settled(case.body, case.hit_cycles)?)
    }

    fn run(case: &Case<'_>) -> Result<Progress, Refused> {
        model::check_settled(case.body, case.hit_cycles)?;
        if N > MOST {
            return Err(UNENDED);
        }
        let mut core = Core::<N>::of(case.body)?;
        let ran = core.run(case.argument, case.hit_cycles);
        Ok(Progress {
            state: state_of(&core),
            cycles: ran.cycles,
            left: ran.left,
        })
    }

    fn finish(case: &Case<'_>) -> Result<u32, Refused> {
        finish::<N>(case.body, case.hit_cycles)
    }

    fn best_worst(case: &Case<'_>) -> Result<Extremes, Refused> {
        model::check_timed(case.body, case.hit_cycles)?;
        let found = model::bounds::<N>(case.body, case.hit_cycles).ok_or(UNENDED)?;
        Ok(Extremes {
            best: found.best,
            worst: found.worst,
        })
    }

    fn bus_time(case: &Case<'_>) -> Result<BusTime, Refused> {
        let found = model_bus::bus_time::<N>(case.body, case.argument, case.hit_cycles)?;
        Ok(BusTime {
            accesses: found.accesses,
            time: found.time.ok_or(UNENDED)?,
        })
    }

    // "10, 8, 11 of the first, then of the second", with 17 after 8
    fn alike(case: &Case<'_>) -> Result<bool, Refused> {
        let one = finish::<N>(case.body, case.hit_cycles)?;
        let other = finish::<N>(case.beside, case.hit_cycles)?;
        Ok(one == other)
    }

    fn worst_times(case: &Case<'_>, list: &mut [u32]) -> Result<u32, Refused> {
        let traces = model_job::worst_times::<N>(case.body, list, FEW, case.hit_cycles)?;
        Ok(traces)
    }

    fn opens(case: &Case<'_>) -> bool {
        let found = model::open(case.body, case.argument);
        case.tells(found.map(part).map_err(Refused::from))
    }

    fn writes(case: &Case<'_>) -> bool {
        let mut numbers = [0u16; COUNTS];
        let counts = case.line.counts(&mut numbers);
        let lent = case.line.number(3) as usize;
        let written = model::check_write(counts, case.body, lent);
        case.line.first().unwrap_or(0) == number_of(&written)
    }

    fn views(case: &Case<'_>) -> bool {
        case.line.first().unwrap_or(0) == number_of(&model::check_body(case.body))
    }

    // The refusals that come before 12.
    fn steps(case: &Case<'_>) -> bool {
        let told = case.line.first().unwrap_or(0);
        match model::check_settled(case.body, case.hit_cycles) {
            Ok(()) => told == 0 || told == 12,
            Err(refusal) => told == refusal.number(),
        }
    }

    fn margins(case: &Case<'_>) -> bool {
        match Self::best_worst(case) {
            Ok(found) => case
                .line
                .says_margin(0, model::margin(case.argument, found.worst)),
            Err(refused) => case.tells(Err(refused)),
        }
    }
}
