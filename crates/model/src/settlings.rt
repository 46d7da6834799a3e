// The settlings of a trace, and the least and the greatest finishing time over all of them.
ghost use Rattle.std.specs.Prelude.{◌≤◌, ◌*◌, IfSome, length};

use super::places::Core;
use super::trace::{Flag, Instruction, MOST, records};

fn unknown_in(x: Instruction) -> u32
    ensures { result ≤ 2 }
{
    u32::from(x.fetch == Flag::Unknown) + u32::from(x.data == Flag::Unknown)
}

// The number of unknown flags.
pub fn unknowns(body: &[u8]) -> u32 {
    let all = records(body).iter();
    all.fold(0, |found: u32, record| {
        found.saturating_add(unknown_in(Instruction::of(record)))
    })
}

impl<const N: usize> Core<N> {
    // Each unknown flag as the choice says, in the trace's order, the fetch before the data access.
    fn settle_by<C: FnMut() -> Flag>(&mut self, mut choose: C)
        requires { C.IsAlwaysCallable choose }
    {
        for s in self.row_mut() {
            if s.instruction.fetch == Flag::Unknown {
                s.instruction.fetch = choose();
            }
            if s.instruction.data == Flag::Unknown {
                s.instruction.data = choose();
            }
        }
    }

    // One settling: bit b of `choice` makes the b-th unknown flag a miss, and 0 there a hit.
    fn settle(&mut self, choice: u32) {
        let mut bits = choice;
        self.settle_by(|| {
            let miss = bits % 2 == 1;
            bits /= 2;
            if miss { Flag::Miss } else { Flag::Hit }
        });
    }

    // The same, of a core that stays as it is.
    pub fn settled(&self, choice: u32) -> Core<N> {
        let mut core = *self;
        core.settle(choice);
        core
    }

    // The settling that makes every unknown flag the same, a hit or a miss.
    pub fn settled_all(&self, flag: Flag) -> Core<N> {
        let mut core = *self;
        core.settle_by(|| flag);
        core
    }
}

// The last choice of all: a bit 1 for each unknown flag.
fn last_choice(body: &[u8]) -> u32 {
    let choices = 1u32.checked_shl(unknowns(body));
    choices.map_or(u32::MAX, |all| all.saturating_sub(1))
}

#[derive(Clone, Copy)]
pub struct Times {
    pub best: u32,
    pub worst: u32,
}

// The finishing time of one settling, in a lent core: what is read anew is the trace alone, however much room there is.
fn time_of<const N: usize>(
    core: &mut Core<N>,
    body: &[u8],
    choice: u32,
    hit_cycles: u32,
) -> Option<u32>
    ensures { IfSome result (λ _. length body.now ≤ 10 * N) }
{
    core.read(body).ok()?;
    core.settle(choice);
    core.finish(hit_cycles)
}

// Best and worst over all settlings, each of which is run: twice as many for each unknown flag more. They are run in a
// lent core, which has room for N instructions.
pub fn bounds_in<const N: usize>(core: &mut Core<N>, body: &[u8], hit_cycles: u32) -> Option<Times>
    ensures { IfSome result (λ times. (times.best ≤ times.worst) × (length body.now ≤ 10 * N)) }
{
    let first = time_of(core, body, 0, hit_cycles)?;
    let mut times = Times {
        best: first,
        worst: first,
    };
    for choice in 1..=last_choice(body) {
        let time = time_of(core, body, choice, hit_cycles)?;
        times = Times {
            best: times.best.min(time),
            worst: times.worst.max(time),
        };
    }
    Some(times)
}

// The same in a core of its own. There is room for N instructions, which are no more than MOST.
pub fn bounds<const N: usize>(body: &[u8], hit_cycles: u32) -> Option<Times> {
    if N > MOST {
        return None;
    }
    bounds_in(&mut Core::<N>::empty(), body, hit_cycles)
}

// The finishing time with every unknown flag a hit, or every one a miss, run in a lent core.
pub fn finish_with_all_in<const N: usize>(
    core: &mut Core<N>,
    body: &[u8],
    flag: Flag,
    hit_cycles: u32,
) -> Option<u32>
    ensures { IfSome result (λ _. length body.now ≤ 10 * N) }
{
    if core.read(body).is_err() {
        return None;
    }
    core.settle_by(|| flag);
    core.finish(hit_cycles)
}

// The same in a core of its own.
pub fn finish_with_all<const N: usize>(body: &[u8], flag: Flag, hit_cycles: u32) -> Option<u32> {
    if N > MOST {
        return None;
    }
    finish_with_all_in(&mut Core::<N>::empty(), body, flag, hit_cycles)
}

// For a trace with more unknown flags than can be settled one by one: the time with every unknown flag
// a hit, and with every one a miss. That no other settling is quicker or slower is the engine's claim,
// and not counted out here.
pub fn all_hits_all_misses<const N: usize>(body: &[u8], hit_cycles: u32) -> Option<Times> {
    Some(Times {
        best: finish_with_all::<N>(body, Flag::Hit, hit_cycles)?,
        worst: finish_with_all::<N>(body, Flag::Miss, hit_cycles)?,
    })
}

// "Deadline minus worst, signed, 64 bits."
pub fn margin(deadline: u32, worst: u32) -> i64 {
    i64::from(deadline) - i64::from(worst)
}
