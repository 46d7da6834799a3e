// One line of a chart: the header; a row, which is the cycle, then the slots as index:count or a
// dash; the last line, which has worst and best; and the line that gives a refusal.
ghost use Rattle.std.specs.Prelude.{◌+◌, ◌*◌, ◌≤◌, ◌++◌, length};
ghost use Rattle.text.specs.Text.{most_digits, decimal};
ghost use Rattle.text.specs.Pen.{Room, Adds};
ghost use Rattle.chart_lines.specs.Lines.{
  header_text,
  slot_text,
  row_text,
  times_text,
  refusal_text,
  header_bytes,
  slot_bytes,
  row_bytes,
  times_bytes,
  refusal_bytes,
};

use machine::{Slot, State};
use text::Pen;

// The most digits that a number of 32 bits has.
const DIGITS: usize = 10;

// The most bytes of a slot: a space, an index, a colon and a count.
const SLOT_BYTES: usize = 1 + DIGITS + 1 + DIGITS;

// The most bytes of each line.
pub const HEADER_BYTES: usize = 25;

pub const ROW_BYTES: usize = DIGITS + 6 * SLOT_BYTES + 1;

pub const TIMES_BYTES: usize = 6 + DIGITS + 6 + DIGITS + 1;

pub fn put_header(pen: &mut Pen)
    requires { Room header_bytes pen.old }
    ensures { Adds header_text pen.old pen.new }
{
    pen.text(b"cycle IF ID EX MEM ST WB\n");
}

fn put_slot(pen: &mut Pen, s: Slot)
    requires { Room slot_bytes pen.old }
    ensures { Adds (slot_text s) pen.old pen.new }
{
    pen.byte(b' ');
    if s.filled {
        pen.decimal(s.index);
        pen.byte(b':');
        pen.decimal(s.count);
    } else {
        pen.byte(b'-');
    }
}

pub fn put_row(pen: &mut Pen, cycle: u32, s: State)
    requires { Room row_bytes pen.old }
    ensures { Adds (row_text cycle s) pen.old pen.new }
{
    pen.decimal(cycle);
    for slot in [s.IF, s.ID, s.EX, s.MEM, s.ST, s.WB] {
        put_slot(pen, slot);
    }
    pen.byte(b'\n');
}

fn put_labelled(pen: &mut Pen, label: &[u8], number: u32)
    requires { Room (length label.now + most_digits) pen.old }
    ensures { Adds (label.now ++ decimal number) pen.old pen.new }
{
    pen.text(label);
    pen.decimal(number);
}

pub fn put_times(pen: &mut Pen, worst: u32, best: u32)
    requires { Room times_bytes pen.old }
    ensures { Adds (times_text worst best) pen.old pen.new }
{
    put_labelled(pen, b"worst ", worst);
    put_labelled(pen, b" best ", best);
    pen.byte(b'\n');
}

pub fn put_refusal(pen: &mut Pen, number: u32)
    requires { Room refusal_bytes pen.old }
    ensures { Adds (refusal_text number) pen.old pen.new }
{
    put_labelled(pen, b"refused ", number);
    pen.byte(b'\n');
}
