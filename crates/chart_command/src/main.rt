// The chart of the first trace of the job file on standard input.
#![tactic(auto)]

use chart_text::{CHART_BYTES, draw};
use reading::{INPUT_BYTES, read_part};
use std::io;

fn main(rt: HostRuntime) -> io::Result<()> {
    let mut input = [0u8; INPUT_BYTES];
    let mut text = [0u8; CHART_BYTES];
    let file = read_part(&mut rt.reader(), &mut input);
    let end = draw(file, &mut text);
    rt.write_all(&text[..end])
}
