// The rows of a chart, one for each number of cycles.
ghost use Rattle.std.specs.Prelude.{◌≡◌, suc, ◌*◌, ◌≤◌};
ghost use Rattle.machine.specs.Instruction.{miss};
ghost use Rattle.machine.specs.Time.{settle};
ghost use Rattle.record.specs.Body.{trace_with, body_refusal};
ghost use Rattle.text.specs.Pen.{Room, Adds};
ghost use Rattle.chart_lines.specs.Lines.{row_bytes};
ghost use Rattle.chart_rows.specs.Rows.{last_row, rows_text};

use chart_lines::put_row;
use machine::Flag;
use running::run_settled;
use text::Pen;

// Rows 0 to `last` of an accepted body, its unknown flags taken as misses; a data hit takes no cycles.
pub fn put_rows(pen: &mut Pen, body: &[u8], last: u32)
    requires { (body_refusal body.now ≡ 0) × (last ≤ last_row) × Room (row_bytes * suc last_row) pen.old }
    ensures { Adds (rows_text (settle miss (trace_with body.now 0)) (suc last)) pen.old pen.new }
{
    for cycle in 0..=last {
        let ran = run_settled(body, Flag::Miss, cycle, 0);
        put_row(pen, cycle, ran.state);
    }
}
