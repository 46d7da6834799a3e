// The public calls for other languages, each under the prefix `sic_` with the C calling convention. A
// slice is passed as a pointer and a length, a struct of numbers as C lays it out, and a part of a
// file as where it starts and how long it is. include/sic.h says who owns what.
#![tactic(auto)]

mod files;
mod states;
mod times;

pub use files::{
    Part, sic_chart, sic_check, sic_open, sic_record, sic_report, sic_worst_times, sic_write,
};
pub use states::{sic_advance, sic_run, sic_start, sic_step};
pub use times::{sic_alike, sic_best_worst, sic_bus_time, sic_finish, sic_margin};
