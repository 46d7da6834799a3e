// View: a checked body carried along, and the fields of its instructions.
#![tactic(auto)]

ghost use Rattle.std.specs.Prelude.{◌≡◌, IfOk};
ghost use Rattle.record.specs.Part.{StartsAt};
ghost use Rattle.record.specs.Number.{refusal_in};
ghost use Rattle.record.specs.Body.{body_refusal, read_in, read_answer};
ghost use Rattle.views.specs.View.{carried, view_body};

use acceptance::check_body;
use record::{Fields, Refusal, fields_at};

// The body that is carried along.
#[derive(Clone, Copy, Drop)]
pub struct View<'a> {
    pub body: &'a [u8],
}

// The body carried along as it lies, not copied: its bytes, which tell its length, and its place.
pub fn make_view<'a>(body: &'a [u8]) -> Result<View<'a>, Refusal>
    ensures refusal { refusal_in result ≡ body_refusal body.now }
    ensures bytes { carried result ≡ view_body body.now }
    ensures place { IfOk result (λ view. StartsAt body.entry 0 view.body) }
{
    check_body(body)?;
    Ok(View { body })
}

// The fields of instruction k as the bytes stand, whatever they are.
pub fn record_at<'a>(v: View<'a>, k: u32) -> Result<Fields, Refusal>
    ensures { read_in result ≡ read_answer v.entry.body.now k }
{
    fields_at(v.body, k)
}
