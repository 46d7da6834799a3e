// The time at which an instruction enters each stage, from what the window remembers of those
// before it. Times are numbers of cycles from the start; 0 stands for none.
ghost use Rattle.std.specs.Prelude.{◌≡◌, ◌+◌, ◌<◌, ◌≤◌, ◌^◌};
ghost use Rattle.machine.specs.Rules.{IF, EX, MEM, entry};
ghost use Rattle.machine.specs.Hits.{with_hit};
ghost use Rattle.machine.proofs.Window.{
  enter_IF,
  enter_ID,
  enter_EX,
  enter_MEM,
  enter_last,
  last_count,
  enter_post,
};
ghost use Rattle.record.specs.Rules.{instruction_of};
ghost use Rattle.record.specs.Body.{max_hit_cycles};
ghost use Rattle.decode.specs.Inner.{AccessLawful};
ghost use Rattle.entering.specs.Inner.{window_of};

use decode::{
    access_misses, choose, count_in_if, count_in_mem, cycles_in_last, fetch_hits, is_store,
    reads_in_id,
};
use record::Fields;

// What a pass remembers of the instructions so far.
#[repr(C)]
#[derive(Clone, Copy, Drop)]
pub struct Window {
    // When IF can be entered next: when the instruction directly before entered ID, or, where that holds
    // fetches back, one cycle after it stood with count 0 in EX; before the first, 1.
    pub next_fetch: u32,
    // When the instruction directly before entered EX, MEM, its last stage and post.
    pub EX: u32,
    pub MEM: u32,
    pub last: u32,
    pub post: u32,
    // One cycle after the last load and store stood with count 0 in MEM and ST.
    pub load_done: u32,
    pub store_done: u32,
    // The target of a load directly before.
    pub load_target: u32,
}

// One function for each stage: the latest of the instruction's own arrival, the stage becoming
// free, and what it waits for. `from` is when it entered the stage before. This is known last, so
// only one sum and one choice depend on it. The cycles of a data hit matter for the stages after MEM.
pub fn enter_if(w: Window, f: Fields) -> u32
    ensures { result ≡ enter_IF (window_of w) (instruction_of f) }
{
    let data = choose(fetch_hits(f), 0, w.load_done.max(w.store_done));
    w.next_fetch.max(data)
}

pub fn enter_id(w: Window, f: Fields, from: u32) -> u32
    requires { from + entry (instruction_of f) IF + 1 < 2 ^ 32 }
    ensures { result ≡ enter_ID (window_of w) (instruction_of f) from }
{
    (from + (count_in_if(f) + 1)).max(w.EX)
}

// A load directly before is done in MEM when it enters WB.
pub fn enter_ex(w: Window, f: Fields, from: u32) -> u32
    requires { from + 1 < 2 ^ 32 }
    ensures { result ≡ enter_EX (window_of w) (instruction_of f) from }
{
    let free = choose(reads_in_id(f, w.load_target), w.last, w.MEM);
    (from + 1).max(free)
}

// An access that misses is a load's or a store's, by the record rules. A store's second source is
// not asked for: its load, if it is not done, keeps MEM busy (`ValueNeverDecides`; of times,
// `value_in_time`).
pub fn enter_mem(w: Window, f: Fields, from: u32) -> u32
    requires { (from + entry (instruction_of f) EX + 1 < 2 ^ 32) × AccessLawful (instruction_of f) }
    ensures { result ≡ enter_MEM (window_of w) (instruction_of f) from }
{
    let store = choose(access_misses(f), w.store_done, 0);
    (from + (f.execution + 1)).max(w.last.max(store))
}

pub fn enter_last(w: Window, f: Fields, from: u32, hit_cycles: u32) -> u32
    requires { from + entry (with_hit hit_cycles (instruction_of f)) MEM + 1 < 2 ^ 32 }
    ensures { result ≡ enter_last (window_of w) (with_hit hit_cycles (instruction_of f)) from }
{
    let store = choose(is_store(f), w.store_done, 0);
    (from + (count_in_mem(f, hit_cycles) + 1)).max(store)
}

pub fn enter_post(f: Fields, from: u32, hit_cycles: u32) -> u32
    requires { (from + last_count (with_hit hit_cycles (instruction_of f)) + 1 < 2 ^ 32) × AccessLawful (instruction_of f) × (hit_cycles ≤ max_hit_cycles) }
    ensures { result ≡ enter_post (with_hit hit_cycles (instruction_of f)) from }
{
    from + cycles_in_last(f, hit_cycles)
}
