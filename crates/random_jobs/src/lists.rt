// Lists with values that no call puts there, so that a place shows whether something was put.
ghost use Rattle.std.specs.Prelude.{◌≤◌};

use random_traces::Dice;
use std::array;

// The most that are lent are 19, for 16 traces and three places more. The last one is beyond every list.
pub const PLACES: usize = 20;

pub type List = [u32; PLACES];

// Above any time: no finishing time is greater than 537,931,776.
const FORMER: u32 = 3000000000;

// A value for each place. No two are the same, so that a value in the wrong place is seen.
pub fn former_values(dice: Dice) -> List {
    array::from_fn(|i| {
        let place = i as u32;
        FORMER + 65536 * place + dice.part(place, 65536)
    })
}

// How many places, from one on, hold the same in both.
pub fn same_from(a: &List, b: &List, from: usize) -> usize
    ensures { result ≤ 20 }
{
    a.iter().zip(b).skip(from).filter(|(x, y)| x == y).count()
}
