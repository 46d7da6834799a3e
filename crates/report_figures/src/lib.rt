// What a line of the report says of a trace; inner functions for the report.
#![tactic(auto)]

ghost use Rattle.std.specs.Prelude.{◌≡◌, ◌+◌, ◌≤◌};
ghost use Rattle.record.specs.Rules.{flag_of};
ghost use Rattle.record.specs.Body.{trace_of, trace_with, body_refusal, timed_refusal};
ghost use Rattle.report_figures.specs.Figures.{is_unknown, unknown_flags, line_of, met};

use machine::Flag;
use passing::finish_settled;
use record::{Fields, count, fields_or_zeros};

#[derive(Clone, Copy, Drop)]
pub struct Line {
    pub number: u32,
    pub instructions: u32,
    pub unknown: u32,
    pub best: u32,
    pub worst: u32,
    pub deadline: u32,
}

// A flag is 0 hit, 1 miss, and otherwise unknown.
fn unknown_of(flag: u32) -> u32
    ensures { (result ≡ is_unknown (flag_of flag)) × (result ≤ 1) }
{
    u32::from(flag > 1)
}

fn unknowns_of(f: Fields) -> u32
    ensures { (result ≡ is_unknown (flag_of f.fetch) + is_unknown (flag_of f.access)) × (result ≤ 2) }
{
    unknown_of(f.fetch) + unknown_of(f.access)
}

fn unknown_flags(body: &[u8]) -> u32
    requires { body_refusal body.now ≡ 0 }
    ensures { result ≡ unknown_flags (trace_of body.now) }
{
    let mut unknown = 0;
    for k in 0..count(body) {
        unknown += unknowns_of(fields_or_zeros(body, k));
    }
    unknown
}

pub fn line_of(body: &[u8], number: u32, deadline: u32, hit_cycles: u32) -> Line
    requires { timed_refusal body.now hit_cycles ≡ 0 }
    ensures { result ≡ line_of number (trace_with body.now hit_cycles) deadline }
{
    Line {
        number,
        instructions: count(body),
        unknown: unknown_flags(body),
        best: finish_settled(body, Flag::Hit, hit_cycles),
        worst: finish_settled(body, Flag::Miss, hit_cycles),
        deadline,
    }
}

// 1 if the deadline is met, exactly or with time to spare; else 0.
pub fn met_by(line: Line) -> u32
    ensures { (result ≡ met line) × (result ≤ 1) }
{
    u32::from(line.worst <= line.deadline)
}
