// The text of the report's lines: of a trace's, the margin, then the columns, each right-aligned; of the
// cycles of a data hit; and of the last. Inner functions for the report.
#![tactic(auto)]

ghost use Rattle.std.specs.Prelude.{◌≡◌, ◌∷◌, ◌+◌, ◌≤◌, ◌<◌, length};
ghost use Rattle.text.specs.Text.{decimal, right};
ghost use Rattle.text.specs.Pen.{Room, Adds};
ghost use Rattle.report_lines.specs.Lines.{margin_text, column, line_text, line_bytes, hit_text, hit_bytes, last_text, last_bytes};

use report_figures::Line;
use std::cmp::Ordering;
use text::{Pen, digits};

const MARGIN_WIDTH: usize = 11;

// The widths of the columns after the margin, and the gap before each.
const NUMBER_WIDTH: usize = 5;

const INSTRUCTIONS_WIDTH: usize = 12;

const UNKNOWN_WIDTH: usize = 7;

const TIME_WIDTH: usize = 10;

const GAP: usize = 2;

// The bytes of a line, the header's too, and the most of the last line, whose two numbers have at
// most ten digits.
pub const LINE_BYTES: usize = MARGIN_WIDTH
    + 6 * GAP
    + NUMBER_WIDTH
    + INSTRUCTIONS_WIDTH
    + UNKNOWN_WIDTH
    + 3 * TIME_WIDTH
    + 1;

pub const LAST_BYTES: usize = 10 + 4 + 10 + 15;

// The most of the line with the cycles of a data hit.
pub const HIT_BYTES: usize = 22 + 10 + 1;

fn put_signed(pen: &mut Pen, sign: u8, n: u32)
    requires { Room 11 pen.old }
    ensures { Adds (right 11 (sign ∷ decimal n)) pen.old pen.new }
{
    pen.spaces(MARGIN_WIDTH - 1 - digits(n));
    pen.byte(sign);
    pen.decimal(n);
}

fn put_margin(pen: &mut Pen, deadline: u32, worst: u32)
    requires { Room 11 pen.old }
    ensures { (pen.new.at ≡ pen.old.at + 11) × Adds (right 11 (margin_text deadline worst)) pen.old pen.new }
{
    match deadline.cmp(&worst) {
        Ordering::Equal => pen.right(MARGIN_WIDTH, 0),
        Ordering::Greater => put_signed(pen, b'+', deadline - worst),
        Ordering::Less => put_signed(pen, b'-', worst - deadline),
    }
}

fn put_column(pen: &mut Pen, width: usize, n: u32)
    requires { (length (decimal n) ≤ width) × Room (2 + width) pen.old }
    ensures { (pen.new.at ≡ pen.old.at + 2 + width) × Adds (column width (decimal n)) pen.old pen.new }
{
    pen.spaces(GAP);
    pen.right(width, n);
}

pub fn put_line(pen: &mut Pen, line: Line)
    requires { (line.number < 100000) × (line.unknown < 10000000) × Room line_bytes pen.old }
    ensures { (pen.new.at ≡ pen.old.at + line_bytes) × Adds (line_text line) pen.old pen.new }
{
    put_margin(pen, line.deadline, line.worst);
    put_column(pen, NUMBER_WIDTH, line.number);
    put_column(pen, INSTRUCTIONS_WIDTH, line.instructions);
    put_column(pen, UNKNOWN_WIDTH, line.unknown);
    put_column(pen, TIME_WIDTH, line.best);
    put_column(pen, TIME_WIDTH, line.worst);
    put_column(pen, TIME_WIDTH, line.deadline);
    pen.byte(b'\n');
}

// Nothing where a data hit takes no cycles.
pub fn put_hit_cycles(pen: &mut Pen, hit_cycles: u32)
    requires { Room hit_bytes pen.old }
    ensures { Adds (hit_text hit_cycles) pen.old pen.new }
{
    if hit_cycles == 0 {
        return;
    }
    pen.text(b"cycles of a data hit: ");
    pen.decimal(hit_cycles);
    pen.byte(b'\n');
}

pub fn put_last(pen: &mut Pen, met: u32, all: u32)
    requires { Room last_bytes pen.old }
    ensures { Adds (last_text met all) pen.old pen.new }
{
    pen.decimal(met);
    pen.text(b" of ");
    pen.decimal(all);
    pen.text(b" deadlines met\n");
}
