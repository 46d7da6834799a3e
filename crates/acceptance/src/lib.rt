// Which bodies are accepted, by the refusals that calls share: 10 a wrong length, 8 a record that
// breaks its rules, 17 a data hit that takes too long, 11 an unknown flag.
#![tactic(auto)]

ghost use Rattle.std.specs.Prelude.{◌≡◌, not, OnOk, IfOk};
ghost use Rattle.record.specs.Refusal.{◌unless◌, unknown_flag};
ghost use Rattle.record.specs.Number.{refusal_in};
ghost use Rattle.record.specs.Body.{
  length_refusal,
  record_refusal,
  unknown_refusal,
  hit_refusal,
  body_refusal,
  timed_refusal,
  settled_refusal,
};

use machine::State;
use record::layout::RECORD_SIZE;
use record::{Refusal, records};
use record_rules::{breaks_rules, not_above_from, unknown_from};

// The most records that a body holds.
const MAX_RECORDS: usize = State::MAX_INSTRUCTIONS as usize;

// The most cycles that a data hit takes.
pub const MAX_HIT_CYCLES: u32 = 15;

pub fn check_length(body: &[u8]) -> Result<(), Refusal>
    ensures { refusal_in result ≡ length_refusal body.now }
{
    if body.len() % RECORD_SIZE != 0 {
        return Err(Refusal::WrongLength);
    }
    if body.len() / RECORD_SIZE > MAX_RECORDS {
        return Err(Refusal::WrongLength);
    }
    Ok(())
}

// 8, and whether a flag is unknown, in one pass: an unknown flag counts only where no record breaks
// its rules.
fn scan_records(body: &[u8]) -> Result<bool, Refusal>
    ensures broken { refusal_in result ≡ record_refusal body.now }
    ensures unknown { IfOk result (λ unknown. (unknown_flag unless not unknown) ≡ unknown_refusal body.now) }
{
    let mut unknown = false;
    for record in records(body) {
        if breaks_rules(record) {
            return Err(Refusal::BrokenRecord);
        }
        unknown |= unknown_from(record);
    }
    Ok(unknown)
}

// 8 only, by the same pass: an unknown flag is not refused here.
pub fn check_records(body: &[u8]) -> Result<(), Refusal>
    ensures { refusal_in result ≡ record_refusal body.now }
{
    scan_records(body)?;
    Ok(())
}

// The same after 10.
fn scan_body(body: &[u8]) -> Result<bool, Refusal>
    ensures broken { refusal_in result ≡ body_refusal body.now }
    ensures unknown { IfOk result (λ unknown. (unknown_flag unless not unknown) ≡ unknown_refusal body.now) }
{
    check_length(body)?;
    scan_records(body)
}

// 17 only, of a body whose records keep their rules: a hit that takes no cycles is shorter than every
// data latency, so that no record need be read for it.
pub fn check_hits(body: &[u8], hit_cycles: u32) -> Result<(), Refusal>
    requires { body_refusal body.now ≡ 0 }
    ensures { refusal_in result ≡ hit_refusal body.now hit_cycles }
{
    if hit_cycles > MAX_HIT_CYCLES {
        return Err(Refusal::LongHit);
    }
    if hit_cycles == 0 {
        return Ok(());
    }
    for record in records(body) {
        if not_above_from(record, hit_cycles) {
            return Err(Refusal::LongHit);
        }
    }
    Ok(())
}

// 10, then 8.
pub fn check_body(body: &[u8]) -> Result<(), Refusal>
    ensures { refusal_in result ≡ body_refusal body.now }
{
    scan_body(body)?;
    Ok(())
}

// 10, then 8, then 17.
pub fn check_timed(body: &[u8], hit_cycles: u32) -> Result<(), Refusal>
    ensures { refusal_in result ≡ timed_refusal body.now hit_cycles }
{
    check_body(body)?;
    check_hits(body, hit_cycles)
}

// 10, then 8, then 17, then 11. One pass finds 8 and 11; its 11 waits until 17 is judged.
pub fn check_settled(body: &[u8], hit_cycles: u32) -> Result<(), Refusal>
    ensures { refusal_in result ≡ settled_refusal body.now hit_cycles }
{
    let unknown = scan_body(body)?;
    check_hits(body, hit_cycles)?;
    if unknown {
        return Err(Refusal::UnknownFlag);
    }
    Ok(())
}
