// The order of the instructions in the pipeline, as a state's slots give it.
ghost use Rattle.std.specs.Prelude.{◌≡◌, ◌≤◌};
ghost use Rattle.machine.specs.Rules.{ST};
ghost use Rattle.machine.specs.State.{younger};
ghost use Rattle.machine.specs.declared.State.{State};
ghost use Rattle.turns.specs.Inner.{turn_of, in_order};

use machine::{Slot, State};

// A filled slot holds the youngest fetched instruction that none of the `younger` filled slots
// before it holds. The sum is made in 64 bits, since a given state may hold any 32-bit index.
fn in_turn(held: Slot, younger: u64, fetched: u32) -> bool
    requires { younger ≤ 4 }
    ensures { result ≡ turn_of held younger fetched }
{
    !held.filled | (held.index as u64 + younger + 1 == fetched as u64)
}

// The filled slots among IF to MEM.
pub fn in_flight(s: State) -> u64
    ensures { (result ≡ younger s ST) × (result ≤ 4) }
{
    u64::from(s.IF.filled)
        + u64::from(s.ID.filled)
        + u64::from(s.EX.filled)
        + u64::from(s.MEM.filled)
}

// The fetched count is at most n; in IF to MEM and in WB the instructions are in turn.
pub fn in_order(n: u32, s: State) -> bool
    ensures { result ≡ in_order n s }
{
    let before_ID = u64::from(s.IF.filled);
    let before_EX = before_ID + u64::from(s.ID.filled);
    let before_MEM = before_EX + u64::from(s.EX.filled);
    (s.fetched <= n)
        & in_turn(s.IF, 0, s.fetched)
        & in_turn(s.ID, before_ID, s.fetched)
        & in_turn(s.EX, before_EX, s.fetched)
        & in_turn(s.MEM, before_MEM, s.fetched)
        & in_turn(s.WB, in_flight(s), s.fetched)
}
