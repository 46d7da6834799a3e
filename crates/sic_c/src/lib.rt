// The library that C callers link, libsic.a: the calls of `sic` under their names, with the same clauses.
#![tactic(auto)]

mod files;
mod states;
mod times;

pub use files::{
    sic_chart, sic_check, sic_open, sic_record, sic_report, sic_worst_times, sic_write,
};
pub use states::{sic_advance, sic_run, sic_start, sic_step};
pub use times::{sic_alike, sic_best_worst, sic_bus_time, sic_finish, sic_margin};
