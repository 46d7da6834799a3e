// One cycle: who moves, and what each slot holds after it.
ghost use Rattle.std.specs.Prelude.{◌≡◌, cond, suc, ◌≤◌, length};
ghost use Rattle.machine.specs.Instruction.{Trace};
ghost use Rattle.machine.specs.Rules.{Stage};
ghost use Rattle.machine.specs.State.{max_instructions};
ghost use Rattle.machine.proofs.BySlots.{occupied, leaves, arrives, slot_after, step_by_slots};
ghost use Rattle.record.specs.Body.{trace_of, trace_with};
ghost use Rattle.moving.specs.Inner.{bits_of, kind_in};
ghost use Rattle.cycle.specs.Inner.{kind_read, standstill};

use decode::{count_in_if, count_in_mem, count_in_st, kind};
use machine::{Kind, Slot, State};
use moving::{Traffic, none};
use record::Fields;
use stages::Stages;
use standing::Standing;
use starting::starts;

// Which stages are filled; pre while there is more to fetch.
fn full(n: u32, s: State) -> Stages<bool>
    ensures { (trace : Trace) → length trace ≡ n → result ≡ bits_of (occupied trace s) }
{
    Stages {
        pre: s.fetched < n,
        IF: s.IF.filled,
        ID: s.ID.filled,
        EX: s.EX.filled,
        MEM: s.MEM.filled,
        ST: s.ST.filled,
        WB: s.WB.filled,
    }
}

// The kinds of the instructions whose fields are read.
fn kinds_read(w: Stages<Fields>) -> Stages<Kind>
    ensures { (k : Stage) → kind_in result k ≡ kind_read w k }
{
    Stages {
        pre: kind(w.pre),
        IF: kind(w.IF),
        ID: kind(w.ID),
        EX: kind(w.EX),
        MEM: kind(w.MEM),
        ST: kind(w.ST),
        WB: kind(w.WB),
    }
}

// A slot after the cycle: what comes in, else what stays, its count less 1, else nothing.
fn slot_after(arrives: bool, index: u32, count: u32, gone: bool, old: Slot) -> Slot
    ensures { result ≡ slot_after arrives index count gone old }
{
    if arrives {
        return Slot::holding(index, count);
    }
    if old.filled & !gone {
        return Slot::holding(old.index, old.count.saturating_sub(1));
    }
    Slot::EMPTY
}

fn fetched_after(fetches: bool, fetched: u32) -> u32
    requires { fetched ≤ max_instructions }
    ensures { result ≡ cond fetches (suc fetched) fetched }
{
    if fetches {
        return fetched + 1;
    }
    fetched
}

// `moving` says which slots are left, `arriving` into which something comes from the slot before.
fn slots_after(
    standing: &Standing,
    moving: Stages<bool>,
    arriving: Stages<bool>,
    hit_cycles: u32,
) -> State
    requires { standing.now.state.fetched ≤ max_instructions }
    ensures { moving ≡ bits_of (leaves (trace_of standing.now.body.now) standing.now.state) →
        arriving ≡ bits_of (arrives (trace_of standing.now.body.now) standing.now.state) →
        result ≡ step_by_slots (trace_with standing.now.body.now hit_cycles) standing.now.state }
{
    let s = standing.state;
    let w = standing.fields;
    State {
        fetched: fetched_after(moving.pre, s.fetched),
        IF: slot_after(arriving.IF, s.fetched, count_in_if(w.pre), moving.IF, s.IF),
        ID: slot_after(arriving.ID, s.IF.index, 0, moving.ID, s.ID),
        EX: slot_after(arriving.EX, s.ID.index, w.ID.execution, moving.EX, s.EX),
        MEM: slot_after(
            arriving.MEM,
            s.EX.index,
            count_in_mem(w.EX, hit_cycles),
            moving.MEM,
            s.MEM,
        ),
        ST: slot_after(
            arriving.ST,
            s.MEM.index,
            count_in_st(w.MEM, hit_cycles),
            moving.ST,
            s.ST,
        ),
        WB: slot_after(arriving.WB, s.MEM.index, 0, moving.WB, s.WB),
    }
}

// A cycle in which no instruction moves.
fn all_stay(s: State) -> State
    ensures { result ≡ standstill s }
{
    State {
        fetched: s.fetched,
        IF: slot_after(false, 0, 0, false, s.IF),
        ID: slot_after(false, 0, 0, false, s.ID),
        EX: slot_after(false, 0, 0, false, s.EX),
        MEM: slot_after(false, 0, 0, false, s.MEM),
        ST: slot_after(false, 0, 0, false, s.ST),
        WB: slot_after(false, 0, 0, false, s.WB),
    }
}

// Of a trace of n instructions, where a data hit takes so many cycles.
pub fn cycle(n: u32, standing: &Standing, hit_cycles: u32) -> State
    requires { standing.now.state.fetched ≤ max_instructions }
    ensures { length (trace_of standing.now.body.now) ≡ n → result ≡ step_by_slots (trace_with standing.now.body.now hit_cycles) standing.now.state }
{
    let starting = starts(n, standing);
    if none(starting) {
        return all_stay(standing.state);
    }
    let traffic = Traffic {
        going: starting,
        full: full(n, standing.state),
        kinds: kinds_read(standing.fields),
    };
    let moving = traffic.leaving();
    slots_after(standing, moving, traffic.arriving(moving), hit_cycles)
}
