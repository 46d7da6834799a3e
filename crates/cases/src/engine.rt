// The engine's answers.
use crate::calls::{Calls, Refused, number, part};
use crate::case::Case;
use crate::{COUNTS, room};
use bus::BusTime;
use job::Bounds;
use opener::inner::open_body;
use parts::cut;
use record::{Read, Refusal};
use running::Progress;
use timing::Extremes;

pub struct Engine;

impl From<Refusal> for Refused {
    fn from(refusal: Refusal) -> Refused {
        Refused(refusal.number())
    }
}

impl Calls for Engine {
    fn check(case: &Case<'_>) -> Result<(), Refused> {
        Ok(acceptance::check_body(case.body)?)
    }

    fn check_settled(case: &Case<'_>) -> Result<(), Refused> {
        Ok(acceptance::check_settled(case.body, case.hit_cycles)?)
    }

    fn run(case: &Case<'_>) -> Result<Progress, Refused> {
        Ok(running::run(case.body, case.argument, case.hit_cycles)?)
    }

    fn finish(case: &Case<'_>) -> Result<u32, Refused> {
        Ok(timing::finish(case.body, case.hit_cycles)?)
    }

    fn best_worst(case: &Case<'_>) -> Result<Extremes, Refused> {
        Ok(timing::best_worst(case.body, case.hit_cycles)?)
    }

    fn bus_time(case: &Case<'_>) -> Result<BusTime, Refused> {
        let wait = (case.argument % 65536) as u16;
        Ok(bus::bus_time(case.body, wait, case.hit_cycles)?)
    }

    fn alike(case: &Case<'_>) -> Result<bool, Refused> {
        Ok(timing::alike(case.body, case.beside, case.hit_cycles)?)
    }

    fn worst_times(case: &Case<'_>, list: &mut [u32]) -> Result<u32, Refused> {
        Ok(whole_job::worst_times(case.body, list, case.hit_cycles)?)
    }

    // DECLINED is what declines the file; what Open gives is the file's part from start to end, and none of
    // it where Open refuses.
    fn opens(case: &Case<'_>) -> bool {
        let file = case.body;
        let found = job::locate(file, case.argument);
        let bounds = found.unwrap_or(Bounds { start: 0, end: 0 });
        let body = cut(file, bounds.start, bounds.end);
        case.tells(
            found
                .map(|bounds| part(bounds.start..bounds.end))
                .map_err(Refused::from),
        ) && case.line.number(3) == number(job::check_file(file).map_err(Refused::from))
            && opener::open(file, case.argument) == found.map(|_| body)
            && open_body(file, case.argument) == body
    }

    // write LENGTH LENT N COUNTS = refusal, length; LENGTH is that of what stands beside. The output is
    // then what stands beside the records: the file, and what was there before past its end, or all of that
    // on a refusal.
    fn writes(case: &Case<'_>) -> bool {
        let mut numbers = [0u16; COUNTS];
        let counts = case.line.counts(&mut numbers);
        let mut out = room();
        let Some(lent) = out.get_mut(..case.line.number(3) as usize) else {
            return false;
        };
        let written = writer::write(counts, case.body, lent).map_err(Refused::from);
        case.tells(written.map(|length| (length, 0))) && out.starts_with(case.beside)
    }

    // view K = refusal on making it, refusal on K, nine fields; no K is in a view that was not made
    fn views(case: &Case<'_>) -> bool {
        let viewed = viewing::read_through(case.body, case.argument);
        let made = viewed.err().map_or(0, |refusal| refusal.number());
        let read = Read::from(viewed.unwrap_or(Err(Refusal::OutOfRange)));
        let f = read.fields;
        case.line.says(&[
            made,
            read.refusal,
            f.kind,
            f.fetch,
            f.access,
            f.source1,
            f.source2,
            f.target,
            f.execution,
            f.fetch_latency,
            f.data_latency,
        ])
    }

    // step STATE = refusal, 0, 0, state, which is the given one on a refusal; or only the refusal
    fn steps(case: &Case<'_>) -> bool {
        let given = case.line.state();
        let (refusal, state) = match pipeline::step(case.body, given, case.hit_cycles) {
            Ok(state) => (0, state),
            Err(refusal) => (refusal.number(), given),
        };
        case.line.says(&[refusal]) || case.line.says_state(refusal, 0, false, state)
    }

    // margin DEADLINE = refusal, how far the margin is above 0, how far below
    fn margins(case: &Case<'_>) -> bool {
        match timing::margin(case.body, case.argument, case.hit_cycles) {
            Ok(margin) => case.line.says_margin(0, margin),
            Err(refusal) => case.line.says_margin(refusal.number(), 0),
        }
    }
}
