// What the programs are given: the bytes of an input, as far as a buffer has room, and the
// arguments.
#![tactic(auto)]

ghost use Rattle.std.specs.Prelude.{◌≤◌, length, take, IfSome};
ghost use Rattle.std.specs.Io.KnownBytes.{Consumes};

use std::env::FillError;
use std::io::Read;
use std::rt::Env;

// One byte more than a job file may have, so that a longer input is refused as such.
pub const INPUT_BYTES: usize = 65537;

// The most bytes of an argument that is read.
pub const WORD_BYTES: usize = 4096;

// Reads until the buffer is full, the input ends or a read fails, and says how many bytes it put at
// the buffer's start: those that the input gave. `read_exact` keeps nothing of a shorter input, and
// `read_to_end` needs a heap.
pub fn read_full<R: Read>(input: &mut R, into: &mut [u8]) -> usize
    ensures room { result ≤ length into.new }
    ensures bytes { Consumes (R.remaining input.old) (R.remaining input.new) (take result into.new) }
{
    let mut done = 0;
    while done < into.len() {
        match input.read(&mut into[done..]) {
            Ok(0) | Err(_) => return done,
            Ok(n) => done += n,
        }
    }
    done
}

// The same, and gives the part that was filled.
pub fn read_part<'a, R: Read>(input: &mut R, into: &'a mut [u8]) -> &'a [u8]
    ensures room { length result.now ≤ length into.old }
    ensures bytes { Consumes (R.remaining input.old) (R.remaining input.new) result.now }
{
    let n = read_full(input, into);
    &into[..n]
}

// Argument i, at the start of the room that is lent; none where there is no such argument, or one
// that is longer than the room.
pub fn argument<'a>(rt: &impl Env, i: usize, room: &'a mut [u8]) -> Option<&'a [u8]>
    ensures { IfSome result (λ word. length word.now ≤ length room.old) }
{
    let n = rt.arg(i, room).ok()?;
    Some(&room[..n])
}

// How many arguments there are, the program's name among them.
pub fn arg_count(rt: &impl Env) -> usize {
    let mut word = [0u8; WORD_BYTES];
    (0..usize::MAX)
        .take_while(|i| !matches!(rt.arg(*i, &mut word), Err(FillError::NotPresent)))
        .count()
}
