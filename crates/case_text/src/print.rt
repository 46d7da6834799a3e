// What is said of a case that does not come out, and of a group.
use crate::line::Line;
use std::io::{self, Write};

// Case n of the group did not come out, and by whom.
pub fn differs<W: Write>(out: &mut W, line: Line<'_>, n: u64, by: &str) -> io::Result<()> {
    write!(out, "  case {n}: ")?;
    out.write_all(line.text)?;
    writeln!(out, ": {by} differs")
}

pub fn end_group<W: Write>(out: &mut W, label: &[u8], right: u64, tried: u64) -> io::Result<()> {
    out.write_all(label)?;
    writeln!(out, ": {right} of {tried}")
}
