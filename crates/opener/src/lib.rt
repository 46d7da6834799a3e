// Open: a trace's body as a part of its file.
#![tactic(auto)]

ghost use Rattle.std.specs.Prelude.{◌≡◌, IfOk};
ghost use Rattle.record.specs.Part.{StartsAt};
ghost use Rattle.record.specs.Number.{refusal_in};
ghost use Rattle.job.specs.Layout.{start_at};
ghost use Rattle.job.specs.Open.{open_refusal, open_body};
ghost use Rattle.opener.specs.Opened.{opened};

use job::locate;
use parts::part;
use record::Refusal;

pub mod inner;

// The trace's body, handed back as a part of the file, without copying: its bytes, which tell its
// length, and its place in the file.
pub fn open<'a>(file: &'a [u8], trace: u32) -> Result<&'a [u8], Refusal>
    ensures refusal { refusal_in result ≡ open_refusal file.now trace }
    ensures bytes { opened result ≡ open_body file.now trace }
    ensures place { IfOk result (λ body. StartsAt file.entry (start_at file.now trace) body) }
{
    let bounds = locate(file, trace)?;
    Ok(part(file, bounds))
}
