// The test of orderly states.
ghost use Rattle.std.specs.Prelude.{◌≡◌, length};
ghost use Rattle.machine.specs.State.{orderly};
ghost use Rattle.record.specs.Body.{trace_of, trace_with};
ghost use Rattle.orderly.specs.Inner.{count_of, stores_apart, all_counted};

use decode::{count_in_if, count_in_mem, count_in_st, is_store};
use machine::Slot;
use standing::Standing;
use turns::{in_flight, in_order};

// No count above the entry count; an empty slot has index 0 and count 0.
fn counted(held: Slot, entry: u32) -> bool
    ensures { result ≡ count_of held entry }
{
    if held.filled {
        return held.count <= entry;
    }
    (held.index == 0) & (held.count == 0)
}

// WB holds no store; ST holds a store older than those in flight.
fn stores_apart(w: &Standing) -> bool
    ensures { result ≡ stores_apart (trace_of w.now.body.now) w.now.state }
{
    let s = w.state;
    let below = s.ST.index as u64 + in_flight(s) < s.fetched as u64;
    (!s.WB.filled | !is_store(w.fields.WB))
        & (!s.ST.filled | below)
        & (!s.ST.filled | is_store(w.fields.ST))
}

fn all_counted(w: &Standing, hit_cycles: u32) -> bool
    ensures { result ≡ all_counted (trace_with w.now.body.now hit_cycles) w.now.state }
{
    let s = w.state;
    counted(s.IF, count_in_if(w.fields.IF))
        & counted(s.ID, 0)
        & counted(s.EX, w.fields.EX.execution)
        & counted(s.MEM, count_in_mem(w.fields.MEM, hit_cycles))
        & counted(s.ST, count_in_st(w.fields.ST, hit_cycles))
        & counted(s.WB, 0)
}

// For a trace of n instructions, where a data hit takes so many cycles.
pub fn orderly(n: u32, w: &Standing, hit_cycles: u32) -> bool
    ensures { length (trace_of w.now.body.now) ≡ n → result ≡ orderly (trace_with w.now.body.now hit_cycles) w.now.state }
{
    in_order(n, w.state) & stores_apart(w) & all_counted(w, hit_cycles)
}
