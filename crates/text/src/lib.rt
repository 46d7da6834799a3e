// Text for a lent output: a pen, which writes bytes, texts, decimal numbers, and numbers right-aligned in
// a column. Inner functions for other crates: each requires room for its piece.
#![tactic(auto)]

pub mod pen;

pub use pen::{Pen, digits};
