// Runs the cases on standard input through the engine and the second model, and says for each group
// how many came out as their lines tell. `tools/make-cases` makes the lines of the texts in `data`. Behind
// its word a line has nothing but numbers (`case_text` reads them):
//
//   p AT END PAIRS     bytes from AT to END, of the input or, from 65,600 on, of what stands beside it: two
//                      and two as one number, the low one first, and these again and again
//   CALL LENGTH ARGUMENTS =ANSWER
//                      a case, on so many bytes of the input; by the engine alone where CALL has a
//                      capital. CALL is the call's name, or its first letter and h, which is 0 otherwise.
//                      What a call is given and answers is told where it is made; an answer of fewer than
//                      three numbers has zeros behind them
//   group LABEL        the end of a group
#![tactic(auto)]

mod calls;
mod case;
mod engine;
mod lines;
mod second;

ghost use Rattle.std.specs.Prelude.{◌≡◌, length};

use reading::read_part;
use std::io;

// The most counts that a case of Write has.
const COUNTS: usize = 17;

// Room for all lines, for the bytes of a case and those beside them, or for an output, and what that holds
// before. The contract gives only the length: what the array holds would be carried along at a cost.
fn room() -> [u8; 900000]
    ensures { 900000 ≡ length result }
{
    [165; 900000]
}

fn main(rt: HostRuntime) -> io::Result<()> {
    let mut data = room();
    let mut bytes = room();
    let lines = read_part(&mut rt.reader(), &mut data);
    lines::each_line(&mut io::writer(&rt), lines, &mut bytes)
}
