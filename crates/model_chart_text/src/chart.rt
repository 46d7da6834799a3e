// "the chart of trace 0 with unknowns as misses: the header line [..], then rows 0 to the smaller of
// finishing time and 1,000, fields one space apart; each row is the cycle, then the slots as
// index:count or a dash. The last line has worst and best. A refusal prints only `refused` and its
// number."
use model::{Core, Flag, MOST, Refusal, Stage, Times};
use std::io;

const LAST_ROW: u32 = 1000;

// "The chart program uses 0" for h (document 02, F-4).
const HIT_CYCLES: u32 = 0;

// Up to this many unknown flags every settling is run.
const FEW: u32 = 8;

fn print_row(rt: &impl Print, cycle: u32, core: &Core<MOST>) -> io::Result<()> {
    print!(rt; "{cycle}")?;
    for stage in [
        Stage::IF,
        Stage::ID,
        Stage::EX,
        Stage::MEM,
        Stage::ST,
        Stage::WB,
    ] {
        match core.in_stage(stage) {
            Some(slot) => print!(rt; " {}:{}", slot.index, slot.count)?,
            None => print!(rt; " -")?,
        }
    }
    println!(rt; "")
}

fn print_rows(rt: &impl Print, core: &mut Core<MOST>) -> io::Result<()> {
    print_row(rt, 0, core)?;
    for cycle in 1..=LAST_ROW {
        if core.all_left() {
            return Ok(());
        }
        core.cycle(HIT_CYCLES);
        print_row(rt, cycle, core)?;
    }
    Ok(())
}

// Over all settlings where the unknown flags are few; otherwise with all of them hits, and all misses.
fn times(body: &[u8]) -> Option<Times> {
    if model::unknowns(body) > FEW {
        return model::all_hits_all_misses::<MOST>(body, HIT_CYCLES);
    }
    model::bounds::<MOST>(body, HIT_CYCLES)
}

// The body of trace 0.
fn first_body(file: &[u8]) -> Result<&[u8], Refusal> {
    let part = model::open(file, 0)?;
    Ok(file.get(part).unwrap_or(b""))
}

// The places are those "with unknowns as misses". No last line where some settling has not left by document 01's
// bound.
fn print_trace(rt: &impl Print, body: &[u8]) -> io::Result<()> {
    println!(rt; "cycle IF ID EX MEM ST WB")?;
    if let Ok(core) = Core::<MOST>::of(body) {
        print_rows(rt, &mut core.settled_all(Flag::Miss))?;
    }
    if let Some(t) = times(body) {
        println!(rt; "worst {} best {}", t.worst, t.best)?;
    }
    Ok(())
}

pub fn print_chart(rt: &impl Print, file: &[u8]) -> io::Result<()> {
    match first_body(file) {
        Ok(body) => print_trace(rt, body),
        Err(refusal) => println!(rt; "refused {}", refusal.number()),
    }
}
