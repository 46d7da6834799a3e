// Job files and bodies: Open, Write, the body's check, reading a record, a whole job's worst times, the
// chart, the report.
ghost use Rattle.std.specs.Prelude.{◌≡◌, length, take, drop};
ghost use Rattle.record.specs.Body.{body_refusal, read_answer};
ghost use Rattle.job.specs.Open.{open_body};
ghost use Rattle.writer.specs.Write.{write_answer, write_output};
ghost use Rattle.chart_text.specs.Chart.{chart_length, chart_output};
ghost use Rattle.report_text.specs.Report.{report_answer, report_output};
ghost use Rattle.whole_job.specs.Answers.{job_answer, job_times};
ghost use Rattle.sic.specs.Part.{open_part};

use record::Read;
use report_text::Reported;
use sic::Part;
use whole_job::WholeJob;
use writer::Written;

// The part, by where it starts and how long it is, and that these bytes are the body.
#[unsafe(no_mangle)]
pub extern "C" fn sic_open(file: &[u8], trace: u32) -> Part
    ensures { (result ≡ open_part file.now trace) × (take result.length (drop result.start file.now) ≡ open_body file.now trace) }
{
    sic::sic_open(file, trace)
}

#[unsafe(no_mangle)]
pub extern "C" fn sic_write(counts: &[u16], records: &[u8], out: &mut [u8]) -> Written
    ensures { (result ≡ write_answer counts.now records.now (length out.old)) × (out.new ≡ write_output counts.now records.now out.old) }
{
    sic::sic_write(counts, records, out)
}

// Whether a view of the body can be made: 10, then 8.
#[unsafe(no_mangle)]
pub extern "C" fn sic_check(body: &[u8]) -> u32
    ensures { result ≡ body_refusal body.now }
{
    sic::sic_check(body)
}

// The fields of instruction k, as the bytes stand.
#[unsafe(no_mangle)]
pub extern "C" fn sic_record(body: &[u8], k: u32) -> Read
    ensures { result ≡ read_answer body.now k }
{
    sic::sic_record(body, k)
}

#[unsafe(no_mangle)]
pub extern "C" fn sic_worst_times(file: &[u8], times: &mut [u32], hit_cycles: u32) -> WholeJob
    ensures { (result ≡ job_answer file.now (length times.old) hit_cycles) × (times.new ≡ job_times file.now times.old hit_cycles) }
{
    sic::sic_worst_times(file, times, hit_cycles)
}

#[unsafe(no_mangle)]
pub extern "C" fn sic_chart(file: &[u8], out: &mut [u8]) -> usize
    ensures { (result ≡ chart_length file.now (length out.old)) × (out.new ≡ chart_output file.now out.old) }
{
    sic::sic_chart(file, out)
}

#[unsafe(no_mangle)]
pub extern "C" fn sic_report(
    file: &[u8],
    deadlines: &[u32],
    out: &mut [u8],
    hit_cycles: u32,
) -> Reported
    ensures { (result ≡ report_answer file.now deadlines.now (length out.old) hit_cycles) × (out.new ≡ report_output file.now deadlines.now out.old hit_cycles) }
{
    sic::sic_report(file, deadlines, out, hit_cycles)
}
