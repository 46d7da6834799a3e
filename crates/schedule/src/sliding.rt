// All the times of an instruction, and the window after it.
ghost use Rattle.std.specs.Prelude.{◌≡◌, ◌≤◌};
ghost use Rattle.machine.specs.Hits.{with_hit};
ghost use Rattle.machine.proofs.Window.{no_window, times_from, slide, all_left_by};
ghost use Rattle.machine.proofs.WindowBounds.{TimesWithin};
ghost use Rattle.record.specs.Rules.{instruction_of};
ghost use Rattle.record.specs.Body.{max_hit_cycles};
ghost use Rattle.decode.specs.Inner.{AccessLawful};
ghost use Rattle.entering.specs.Inner.{window_of};
ghost use Rattle.machine.specs.Time.{max_time};
ghost use Rattle.schedule.specs.Inner.{times_of, Room};

use decode::{choose, holds_fetches, is_load, is_store};
use entering::{Window, enter_ex, enter_id, enter_if, enter_last, enter_mem, enter_post};
use record::Fields;

// When an instruction enters each stage, `last` being ST or WB.
#[repr(C)]
#[derive(Clone, Copy, Drop)]
pub struct Times {
    pub IF: u32,
    pub ID: u32,
    pub EX: u32,
    pub MEM: u32,
    pub last: u32,
    pub post: u32,
}

pub fn no_window() -> Window
    ensures { window_of result ≡ no_window }
{
    Window {
        next_fetch: 1,
        EX: 0,
        MEM: 0,
        last: 0,
        post: 0,
        load_done: 0,
        store_done: 0,
        load_target: 0,
    }
}

// All six, each from the one before.
pub fn times_from(w: Window, f: Fields, hit_cycles: u32) -> Times
    requires { TimesWithin max_time (times_from (window_of w) (with_hit hit_cycles (instruction_of f))) × AccessLawful (instruction_of f) × (hit_cycles ≤ max_hit_cycles) }
    ensures { times_of result ≡ times_from (window_of w) (with_hit hit_cycles (instruction_of f)) }
{
    let at_if = enter_if(w, f);
    let at_id = enter_id(w, f, at_if);
    let at_ex = enter_ex(w, f, at_id);
    let at_mem = enter_mem(w, f, at_ex);
    let at_last = enter_last(w, f, at_mem, hit_cycles);
    Times {
        IF: at_if,
        ID: at_id,
        EX: at_ex,
        MEM: at_mem,
        last: at_last,
        post: enter_post(f, at_last, hit_cycles),
    }
}

// The window after an instruction that has these times.
pub fn slide(w: Window, f: Fields, e: Times) -> Window
    requires { Room (instruction_of f) (times_of e) }
    ensures { window_of result ≡ slide (window_of w) (instruction_of f) (times_of e) }
{
    let load = is_load(f);
    Window {
        next_fetch: choose(holds_fetches(f), e.EX + (f.execution + 1), e.ID),
        EX: e.EX,
        MEM: e.MEM,
        last: e.last,
        post: e.post,
        load_done: choose(load, e.last, w.load_done),
        store_done: choose(is_store(f), e.post, w.store_done),
        load_target: choose(load, f.target, 0),
    }
}

// When all so far have left: the last of them leaves last, or the last store.
pub fn all_left_by(w: Window) -> u32
    ensures { result ≡ all_left_by (window_of w) }
{
    w.store_done.max(w.post)
}
