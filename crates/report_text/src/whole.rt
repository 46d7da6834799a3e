// The whole report: the header, a line for each trace, the cycles of a data hit where it takes any, and
// how many deadlines are met.
ghost use Rattle.std.specs.Prelude.{◌≡◌, ◌+◌, ◌*◌, ◌≤◌, length, Ok, IfSome, IfOk, ◌<◌};
ghost use Rattle.job.specs.Layout.{traces, max_traces};
ghost use Rattle.timed_file.specs.Refusal.{timed_file_refusal};
ghost use Rattle.text.specs.Pen.{Room, Adds};
ghost use Rattle.report_lines.specs.Lines.{line_bytes};
ghost use Rattle.report_text.specs.Report.{
  longest,
  lines_text,
  met_below,
  report_text,
  serves,
  reported,
  report_answer,
  report_output,
};

use crate::figures::line_at;
use job::table::MAX_TRACES;
use little_endian::half;
use record::Refusal;
use report_figures::met_by;
use report_lines::{HIT_BYTES, LAST_BYTES, LINE_BYTES, put_hit_cycles, put_last, put_line};
use text::Pen;
use timed_file::check_timed_file;

// Room for any report: the header, a line for each trace, the cycles of a data hit and the last line.
pub const REPORT_BYTES: usize = (MAX_TRACES as usize + 1) * LINE_BYTES + HIT_BYTES + LAST_BYTES;

// How many traces an accepted file has, and how long the report is; none where it was not written.
#[derive(Clone, Copy, Drop)]
pub struct Outcome {
    pub traces: u32,
    pub length: Option<usize>,
}

// The answer as C takes it: `traces` is 0 for a refused file, and `length` is 0 where no report was
// written.
#[repr(C)]
#[derive(Clone, Copy, Drop)]
pub struct Reported {
    pub refusal: u32,
    pub traces: u32,
    pub length: usize,
}

impl From<Result<Outcome, Refusal>> for Reported {
    ghost from_gives = { λ answer given. given ≡ reported answer };

    fn from(answer: Result<Outcome, Refusal>) -> Reported {
        match answer {
            Ok(outcome) => Reported {
                refusal: 0,
                traces: outcome.traces,
                length: outcome.length.unwrap_or(0),
            },
            Err(refusal) => Reported {
                refusal: refusal.number(),
                traces: 0,
                length: 0,
            },
        }
    }
}

// Puts the lines, and gives how many deadlines are met.
fn put_lines(pen: &mut Pen, file: &[u8], deadlines: &[u32], all: u32, hit_cycles: u32) -> u32
    requires { (timed_file_refusal file.now hit_cycles ≡ 0) × (all ≡ traces file.now) × Room (line_bytes * all) pen.old }
    ensures { (result ≡ met_below file.now deadlines.now hit_cycles all) × (pen.new.at ≡ pen.old.at + line_bytes * all) × Adds (lines_text file.now deadlines.now hit_cycles all) pen.old pen.new }
{
    let mut met = 0;
    for t in 0..all {
        let line = line_at(file, deadlines, t, hit_cycles);
        put_line(pen, line);
        met += met_by(line);
    }
    met
}

fn put_report(pen: &mut Pen, file: &[u8], deadlines: &[u32], all: u32, hit_cycles: u32)
    requires { (timed_file_refusal file.now hit_cycles ≡ 0) × (all ≡ traces file.now) × (all ≤ max_traces) × Room longest pen.old }
    ensures { Adds (report_text file.now deadlines.now hit_cycles) pen.old pen.new }
{
    pen.text(b"     margin  trace  instructions  unknown        best       worst    deadline\n");
    let met = put_lines(pen, file, deadlines, all, hit_cycles);
    put_hit_cycles(pen, hit_cycles);
    put_last(pen, met, all);
}

// One deadline for all traces, or one for each.
fn serve(deadlines: usize, all: u32) -> bool
    ensures { result ≡ serves deadlines all }
{
    (deadlines == 1) | (deadlines == all as usize)
}

// The report of an accepted file. Deadlines that are neither one nor as many as the traces, and an output
// with less room than the longest report may take, leave the output as it is.
fn report_on(file: &[u8], deadlines: &[u32], out: &mut [u8], hit_cycles: u32) -> Outcome
    requires { timed_file_refusal file.now hit_cycles ≡ 0 }
    ensures answer { (reported (Ok result) ≡ report_answer file.now deadlines.now (length out.old) hit_cycles) × (out.new ≡ report_output file.now deadlines.now out.old hit_cycles) }
    ensures written { IfSome result.length (λ n. 0 < n) }
{
    let traces = half(file, 0);
    if !serve(deadlines.len(), traces) {
        return Outcome {
            traces,
            length: None,
        };
    }
    if out.len() < REPORT_BYTES {
        return Outcome {
            traces,
            length: None,
        };
    }
    let mut pen = Pen::new(out);
    put_report(&mut pen, file, deadlines, traces, hit_cycles);
    Outcome {
        traces,
        length: Some(pen.written()),
    }
}

// Writes the report to the start of the output; bytes past it keep their values. A refused file leaves
// the output as it is.
pub fn try_report(
    file: &[u8],
    deadlines: &[u32],
    out: &mut [u8],
    hit_cycles: u32,
) -> Result<Outcome, Refusal>
    ensures answer { (reported result ≡ report_answer file.now deadlines.now (length out.old) hit_cycles) × (out.new ≡ report_output file.now deadlines.now out.old hit_cycles) }
    ensures written { IfOk result (λ r. IfSome r.length (λ n. 0 < n)) }
{
    check_timed_file(file, hit_cycles)?;
    let outcome = report_on(file, deadlines, out, hit_cycles);
    Ok(outcome)
}

// The same, with its answer as C takes it.
pub fn report(file: &[u8], deadlines: &[u32], out: &mut [u8], hit_cycles: u32) -> Reported
    ensures { (result ≡ report_answer file.now deadlines.now (length out.old) hit_cycles) × (out.new ≡ report_output file.now deadlines.now out.old hit_cycles) }
{
    try_report(file, deadlines, out, hit_cycles).into()
}
