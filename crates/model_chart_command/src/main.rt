// Prints the chart of the job file on standard input as the second model draws it; the examples'
// charts are made with it, and the program `example_charts` holds the engine to them.
#![tactic(auto)]

use reading::{INPUT_BYTES, read_part};
use std::io;

fn main(rt: HostRuntime) -> io::Result<()> {
    let mut input = [0u8; INPUT_BYTES];
    let file = read_part(&mut rt.reader(), &mut input);
    model_chart_text::print_chart(&rt, file)
}
