// The counts, a line each.
use crate::tally::Tally;
use std::io;

fn rows_and_times(rt: &impl Print, t: &Tally) -> io::Result<()> {
    println!(rt;
        "{} traces, {} of them declined with 17, {} compared with h above 0",
        t.traces, t.declined, t.with_hits
    )?;
    println!(rt; "{} rows from Run", t.rows)?;
    println!(rt; "{} rows from Step", t.rows)?;
    println!(rt; "{} finishing times", t.finishes)?;
    println!(rt;
        "{} best and worst times, {} settlings",
        t.bounds, t.settlings
    )?;
    println!(rt; "{} margins", t.margins)
}

fn pairs_and_files(rt: &impl Print, t: &Tally) -> io::Result<()> {
    println!(rt;
        "{} ordered pairs, {} of them within the sum bound",
        t.pairs, t.sums
    )?;
    println!(rt; "{} likenesses", t.likes)?;
    println!(rt; "{} job files, {} damaged ones", t.files, t.damaged)?;
    println!(rt; "{} bodies that may be broken", t.refusals)
}

pub fn print(rt: &impl Print, t: &Tally) -> io::Result<()> {
    rows_and_times(rt, t)?;
    pairs_and_files(rt, t)?;
    t.seen.for_each_refusal(|number, count| println!(rt;
        "{number} was the refusal {count} times"
    ))?;
    match t.differing {
        None => println!(rt; "engine and model agree"),
        Some(trace) => println!(rt; "{trace} is the first trace at which they DIFFER"),
    }
}
