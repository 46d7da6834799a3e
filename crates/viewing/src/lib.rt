// View for callers that hold no struct with a slice in it: a view is made of a body, and one
// instruction is read through it.
#![tactic(auto)]

ghost use Rattle.std.specs.Prelude.{◌≡◌};
ghost use Rattle.viewing.specs.Viewing.{viewed, read_through};

use record::{Fields, Refusal};
use views::{make_view, record_at};

// What reading instruction k through the view gave, where the view was made.
pub fn read_through(body: &[u8], k: u32) -> Result<Result<Fields, Refusal>, Refusal>
    ensures { viewed result ≡ read_through body.now k }
{
    let view = make_view(body)?;
    Ok(record_at(view, k))
}
