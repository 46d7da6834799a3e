// Line after line: bytes are laid out, cases are tried and counted by groups.
use crate::case::Case;
use crate::engine::Engine;
use crate::second::Second;
use case_text::{Line, differs, end_group};
use model::{MOST, RECORD};
use std::io::{self, Write};

// How many cases of the group were tried, and how many came out.
#[derive(Clone, Copy, Default)]
struct Tally {
    tried: u64,
    right: u64,
}

// Where the label stands behind `group`.
const LABEL: usize = 6;

// Instructions of a case for whose bodies the second model has little room, and some. Room is filled for each case,
// so that most room for all would take longer than the short ones themselves.
const LITTLE: usize = 64;

const SOME: usize = 512;

// Whether the second model answers as the line tells, with room for what the case has.
fn second_comes_out(case: &Case<'_>) -> bool {
    let longest = case.body.len().max(case.beside.len()) / RECORD;
    if longest <= LITTLE {
        case.comes_out::<Second<LITTLE>>()
    } else if longest <= SOME {
        case.comes_out::<Second<SOME>>()
    } else {
        case.comes_out::<Second<MOST>>()
    }
}

// Who does not answer as the line tells; what begins with no call the engine does not answer.
fn differing(line: Line<'_>, bytes: &[u8]) -> Option<&'static str> {
    let Some(case) = Case::read(line, bytes) else {
        return Some("the engine");
    };
    if !case.comes_out::<Engine>() {
        return Some("the engine");
    }
    if case.capital || second_comes_out(&case) {
        return None;
    }
    Some("the second model")
}

fn follow<W: Write>(
    out: &mut W,
    line: Line<'_>,
    tally: &mut Tally,
    bytes: &mut [u8],
) -> io::Result<()> {
    match line.text.first() {
        Some(b'p') => line.lay(bytes),
        Some(b'g') => {
            let label = line.text.get(LABEL..).unwrap_or(&[]);
            end_group(out, label, tally.right, tally.tried)?;
            *tally = Tally::default();
        }
        _ => {
            tally.tried = tally.tried.wrapping_add(1);
            match differing(line, bytes) {
                Some(by) => differs(out, line, tally.tried, by)?,
                None => tally.right = tally.right.wrapping_add(1),
            }
        }
    }
    Ok(())
}

pub fn each_line<W: Write>(out: &mut W, lines: &[u8], bytes: &mut [u8]) -> io::Result<()> {
    let mut tally = Tally::default();
    for line in lines.split_inclusive(|byte| *byte == b'\n') {
        let text = line.strip_suffix(b"\n").unwrap_or(line);
        follow(out, Line { text }, &mut tally, bytes)?;
    }
    Ok(())
}
