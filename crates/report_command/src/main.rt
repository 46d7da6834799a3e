// The report of the job file on standard input against the deadlines that the arguments give, with the
// cycles of a data hit if the option gives them. Where there is nothing to report, one line says why
// and what to give instead.
#![tactic(auto)]

mod complaint;

use complaint::Complaint;
use deadlines::deadline_of;
use reading::{INPUT_BYTES, WORD_BYTES, arg_count, argument, read_part};
use report_text::{REPORT_BYTES, try_report};
use std::io;
use std::rt::Env;

const MAX_TRACES: usize = 16;

// The number of cycles that argument i is, written as a deadline is. A word that is longer than the
// buffer is none.
fn cycles_in(rt: &impl Env, i: usize) -> Option<u32> {
    let mut word = [0u8; WORD_BYTES];
    deadline_of(argument(rt, i, &mut word)?)
}

// Whether the first argument is the option before the cycles of a data hit.
fn has_option(rt: &impl Env) -> bool {
    let mut word = [0u8; WORD_BYTES];
    argument(rt, 1, &mut word).is_some_and(|word| word == b"--hit-cycles".as_slice())
}

// The deadlines from argument `first` on, at the start of the room that is lent.
fn deadlines_in<'a>(
    rt: &impl Env,
    first: usize,
    room: &'a mut [u32],
) -> Result<&'a [u32], Complaint> {
    let count = arg_count(rt);
    if count <= first {
        return Err(Complaint::NoDeadlines);
    }
    for (k, i) in (first..count).enumerate() {
        let cycles = cycles_in(rt, i).ok_or(Complaint::NotDeadline { argument: i })?;
        if let Some(place) = room.get_mut(k) {
            *place = cycles;
        }
    }
    let deadlines = count - first;
    room.get(..deadlines)
        .ok_or(Complaint::TooManyDeadlines { deadlines })
}

// The report of the input, at the start of the room that is lent.
fn report_against<'a>(
    rt: &impl Input,
    deadlines: &[u32],
    hit_cycles: u32,
    room: &'a mut [u8],
) -> Result<&'a [u8], Complaint> {
    let mut input = [0u8; INPUT_BYTES];
    let file = read_part(&mut rt.reader(), &mut input);
    let outcome = try_report(file, deadlines, room, hit_cycles)?;
    let Some(length) = outcome.length else {
        return Err(Complaint::Misfit {
            deadlines: deadlines.len(),
            traces: outcome.traces,
        });
    };
    Ok(&room[..length])
}

// Without the option a data hit takes no cycles.
fn report_of<'a>(rt: &(impl Env + Input), room: &'a mut [u8]) -> Result<&'a [u8], Complaint> {
    let (first, hit_cycles) = if has_option(rt) {
        (3, cycles_in(rt, 2).ok_or(Complaint::NotCycles)?)
    } else {
        (1, 0)
    };
    let mut words = [0u32; MAX_TRACES];
    let deadlines = deadlines_in(rt, first, &mut words)?;
    report_against(rt, deadlines, hit_cycles, room)
}

fn main(rt: HostRuntime) -> io::Result<()> {
    let mut room = [0u8; REPORT_BYTES];
    match report_of(&rt, &mut room) {
        Ok(text) => rt.write_all(text),
        Err(complaint) => rt.println(complaint),
    }
}
