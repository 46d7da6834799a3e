// Draws each job file that the arguments name and compares the text with its chart: the arguments
// are pairs, a job file and its chart.
#![tactic(auto)]

ghost use Rattle.std.specs.Prelude.{◌≤◌, IfSome, length};

use chart_text::{CHART_BYTES, draw};
use reading::{INPUT_BYTES, WORD_BYTES, arg_count, argument, read_part};
use std::fs::File;
use std::io;
use std::rt::{Env, Files};

// What the file that argument i names holds, as far as the room that is lent reaches.
fn read_named<'a>(rt: &(impl Env + Files), i: usize, room: &'a mut [u8]) -> Option<&'a [u8]>
    ensures { IfSome result (λ bytes. length bytes.now ≤ length room.old) }
{
    let mut word = [0u8; WORD_BYTES];
    let path = str::from_utf8(argument(rt, i, &mut word)?).ok()?;
    let mut file = File::open(rt, path).ok()?;
    Some(read_part(&mut file, room))
}

fn print_arg(rt: &(impl Env + Print), i: usize) -> io::Result<()> {
    let mut word = [0u8; WORD_BYTES];
    rt.write_all(argument(rt, i, &mut word).unwrap_or(&[]))
}

fn agrees(rt: &(impl Env + Files), i: usize, chart: usize) -> bool {
    let mut job = [0u8; INPUT_BYTES];
    let mut drawn = [0u8; CHART_BYTES];
    let mut text = [0u8; CHART_BYTES];
    let file = read_named(rt, i, &mut job).unwrap_or(&[]);
    let expected = read_named(rt, chart, &mut drawn).unwrap_or(&[]);
    let end = draw(file, &mut text);
    &text[..end] == expected
}

fn tell(rt: &(impl Env + Files + Print), i: usize, chart: usize) -> io::Result<()> {
    print_arg(rt, i)?;
    if agrees(rt, i, chart) {
        println!(rt; " agrees")
    } else {
        println!(rt; " DIFFERS")
    }
}

fn main(rt: HostRuntime) -> io::Result<()> {
    for i in (1..arg_count(&rt)).step_by(2) {
        tell(&rt, i, i + 1)?;
    }
    Ok(())
}
