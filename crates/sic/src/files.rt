// Job files and bodies: Open, Write, the body's check, reading a record, a whole job's worst times, the
// chart, the report.
ghost use Rattle.std.specs.Prelude.{◌≡◌, length, take, drop};
ghost use Rattle.record.specs.Body.{body_refusal, read_answer};
ghost use Rattle.job.specs.Open.{open_body};
ghost use Rattle.writer.specs.Write.{write_answer, write_output};
ghost use Rattle.chart_text.specs.Chart.{chart_length, chart_output};
ghost use Rattle.report_text.specs.Report.{report_answer, report_output};
ghost use Rattle.whole_job.specs.Answers.{job_answer, job_times};
ghost use Rattle.sic.specs.Part.{open_part};

use record::Read;
use report_text::Reported;
use whole_job::WholeJob;
use writer::Written;

// A part of a file as C takes it: where it starts and how long it is, or the refusal's number and zeros.
#[repr(C)]
#[derive(Clone, Copy, Drop)]
pub struct Part {
    pub refusal: u32,
    pub start: usize,
    pub length: usize,
}

// The part, by where it starts and how long it is, and that these bytes are the body.
#[unsafe(no_mangle)]
pub extern "C" fn sic_open(file: &[u8], trace: u32) -> Part
    ensures { (result ≡ open_part file.now trace) × (take result.length (drop result.start file.now) ≡ open_body file.now trace) }
{
    match job::locate(file, trace) {
        Ok(bounds) => Part {
            refusal: 0,
            start: bounds.start,
            length: bounds.end - bounds.start,
        },
        Err(refusal) => Part {
            refusal: refusal.number(),
            start: 0,
            length: 0,
        },
    }
}

#[unsafe(no_mangle)]
pub extern "C" fn sic_write(counts: &[u16], records: &[u8], out: &mut [u8]) -> Written
    ensures { (result ≡ write_answer counts.now records.now (length out.old)) × (out.new ≡ write_output counts.now records.now out.old) }
{
    writer::write(counts, records, out).into()
}

// Whether a view of the body can be made: 10, then 8.
#[unsafe(no_mangle)]
pub extern "C" fn sic_check(body: &[u8]) -> u32
    ensures { result ≡ body_refusal body.now }
{
    match acceptance::check_body(body) {
        Ok(()) => 0,
        Err(refusal) => refusal.number(),
    }
}

// The fields of instruction k, as the bytes stand.
#[unsafe(no_mangle)]
pub extern "C" fn sic_record(body: &[u8], k: u32) -> Read
    ensures { result ≡ read_answer body.now k }
{
    record::fields_at(body, k).into()
}

#[unsafe(no_mangle)]
pub extern "C" fn sic_worst_times(file: &[u8], times: &mut [u32], hit_cycles: u32) -> WholeJob
    ensures { (result ≡ job_answer file.now (length times.old) hit_cycles) × (times.new ≡ job_times file.now times.old hit_cycles) }
{
    whole_job::worst_times(file, times, hit_cycles).into()
}

#[unsafe(no_mangle)]
pub extern "C" fn sic_chart(file: &[u8], out: &mut [u8]) -> usize
    ensures { (result ≡ chart_length file.now (length out.old)) × (out.new ≡ chart_output file.now out.old) }
{
    chart_text::draw(file, out)
}

#[unsafe(no_mangle)]
pub extern "C" fn sic_report(
    file: &[u8],
    deadlines: &[u32],
    out: &mut [u8],
    hit_cycles: u32,
) -> Reported
    ensures { (result ≡ report_answer file.now deadlines.now (length out.old) hit_cycles) × (out.new ≡ report_output file.now deadlines.now out.old hit_cycles) }
{
    report_text::report(file, deadlines, out, hit_cycles)
}
