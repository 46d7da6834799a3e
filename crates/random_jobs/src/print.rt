// The counts, a line each.
use crate::tally::Tally;
use std::io;

fn files(rt: &impl Print, t: &Tally) -> io::Result<()> {
    println!(rt; "{} job files, each whole and damaged", t.files)?;
    println!(rt; "{} of them without a trace, {} with 16", t.empty, t.full)?;
    println!(rt;
        "{} of them declined with 17 while whole, {} timed with h above 0",
        t.declined, t.with_hits
    )
}

fn places(rt: &impl Print, t: &Tally) -> io::Result<()> {
    println!(rt;
        "{} times, {} other places kept their values",
        t.times, t.kept
    )?;
    println!(rt;
        "{} places kept their values where a call was declined",
        t.unaltered
    )?;
    println!(rt; "{} lists are not as they have to be", t.wrong)
}

pub fn print(rt: &impl Print, t: &Tally) -> io::Result<()> {
    files(rt, t)?;
    println!(rt;
        "{} answers, {} on which engine and model differ",
        t.answers, t.differ
    )?;
    t.seen.for_each_refusal(|number, count| println!(rt; "{count} of them refusal {number}"))?;
    print!(rt; "{} lists filled with ", t.seen.number_of(0))?;
    places(rt, t)
}
