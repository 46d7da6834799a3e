// The instruction record as bytes: where each field stands, how many records a body has, reading one
// and writing one.
#![tactic(auto)]

pub mod choice;
pub mod layout;
pub mod refusal;
pub mod writing;

pub use choice::choose;
pub use layout::{Fields, Read, count, fields_at, fields_of, fields_or_zeros, no_fields, records};
pub use refusal::Refusal;
pub use writing::put_record;
