// The schedule of a trace, one instruction after the other: the times at which it enters each stage,
// from a window of constant size on those before it. No public call of document 01 is here; Run,
// Finish, and Best and worst are passes that call these functions.
#![tactic(auto)]

pub mod sliding;

pub use sliding::{Times, all_left_by, no_window, slide, times_from};
