// The whole chart, or the line that gives a refusal.
ghost use Rattle.std.specs.Prelude.{◌≡◌, ◌≤◌, length};
ghost use Rattle.record.specs.Body.{trace_with, body_refusal};
ghost use Rattle.text.specs.Pen.{Room, Adds};
ghost use Rattle.chart_text.specs.Chart.{
  longest,
  chart_of,
  chart_text,
  chart_length,
  chart_output,
};

use chart_lines::{HEADER_BYTES, ROW_BYTES, TIMES_BYTES, put_header, put_refusal, put_times};
use chart_rows::put_rows;
use machine::Flag;
use opener::open;
use passing::finish_settled;
use text::Pen;

const LAST_ROW: u32 = 1000;

// Room for any chart: the header, rows 0 to 1,000 and the last line.
pub const CHART_BYTES: usize = HEADER_BYTES + (LAST_ROW as usize + 1) * ROW_BYTES + TIMES_BYTES;

// One pass over the body for each time: it is accepted, so that Best and worst would check it again.
fn put_chart(pen: &mut Pen, body: &[u8])
    requires { (body_refusal body.now ≡ 0) × Room longest pen.old }
    ensures { Adds (chart_of (trace_with body.now 0)) pen.old pen.new }
{
    let worst = finish_settled(body, Flag::Miss, 0);
    let best = finish_settled(body, Flag::Hit, 0);
    put_header(pen);
    put_rows(pen, body, worst.min(LAST_ROW));
    put_times(pen, worst, best);
}

fn put_chart_or_refusal(pen: &mut Pen, file: &[u8])
    requires { Room longest pen.old }
    ensures { Adds (chart_text file.now) pen.old pen.new }
{
    match open(file, 0) {
        Ok(body) => put_chart(pen, body),
        Err(refusal) => put_refusal(pen, refusal.number()),
    }
}

// Gives the chart's length in the output; bytes past it keep their values. An output with less room
// than the longest chart may take stays as it is, and the length is 0.
pub fn draw(file: &[u8], out: &mut [u8]) -> usize
    ensures { (result ≡ chart_length file.now (length out.old)) × (out.new ≡ chart_output file.now out.old) }
{
    if out.len() < CHART_BYTES {
        return 0;
    }
    let mut pen = Pen::new(out);
    put_chart_or_refusal(&mut pen, file);
    pen.written()
}
