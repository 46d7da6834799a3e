// What an instruction does, from its record's fields: its kind and flags by name, what it reads, its
// counts on entry, whom it waits for in which stage and until when. No public call of document 01 is
// here; a cycle and the passes over a body ask these functions.
#![tactic(auto)]

pub mod counts;
pub mod kinds;
pub mod waits;

pub use counts::{count_in_if, count_in_last, count_in_mem, count_in_st, cycles_in_last};
pub use kinds::{
    access_hits, access_misses, fetch_hits, flag_number, flag_of, holds_fetches, is_load, is_store,
    kind, kind_number, kind_of, misses_data, reads_in_id,
};
pub use record::choose;
pub use waits::{pending, stage_of, waits_for};
