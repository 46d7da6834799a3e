// The counts, a line each.
use crate::calls::Calls;
use crate::covers::{Attained, Covers};
use std::{fmt, io};

impl fmt::Display for Attained {
    fn fmt<W: fmt::Write>(&self, f: &mut fmt::Formatter<W>) -> fmt::Result {
        write!(
            f,
            "{} attain the time given, {} do not, by at most {} cycles",
            self.exact, self.short, self.gap
        )
    }
}

pub fn print_calls(rt: &impl Print, calls: &Calls) -> io::Result<()> {
    println!(rt;
        "{} answers, {} on which engine and model differ",
        calls.compared, calls.wrong
    )?;
    for number in [10, 8, 17, 15] {
        println!(rt; "{} of them {number}", calls.seen.number_of(number))?;
    }
    println!(rt;
        "{} that would be 15 for a wait of one cycle more",
        calls.within
    )?;
    println!(rt; "{} times with h above 0", calls.with_hits)
}

pub fn print_covers(rt: &impl Print, covers: &Covers) -> io::Result<()> {
    println!(rt;
        "{} traces, {} of which do not hold",
        covers.traces, covers.wrong
    )?;
    println!(rt;
        "{} of them declined with 17, {} compared with h above 0",
        covers.declined, covers.with_hits
    )?;
    println!(rt; "{} with every settling and every wait", covers.whole)?;
    println!(rt; "{} settlings with waits", covers.versions)?;
    println!(rt;
        "{} rows, {} with an access under way",
        covers.rows, covers.busy
    )?;
    println!(rt; "{}", covers.all)?;
    println!(rt;
        "with one missed access and no unknown one: {}",
        covers.single
    )
}
