// When an instruction enters each stage, from a window of constant size on those before it: one
// function for each stage, each of which requires that its sum fits 32 bits.
#![tactic(auto)]

pub mod stages;

pub use stages::{Window, enter_ex, enter_id, enter_if, enter_last, enter_mem, enter_post};
