// The refusals 10, 8, 17 and 11 of a body.
use super::refusal::Refusal;
use super::settlings::unknowns;
use super::trace::{Instruction, MOST, RECORD, records};

// "Newer cores spend h more cycles, 0 to 15, on a data hit" (document 02, F-4). The code calls h
// `hit_cycles`.
pub const MOST_HIT_CYCLES: u32 = 15;

// 8 where some record breaks its rules or is not whole.
pub fn check_records(bytes: &[u8]) -> Result<(), Refusal> {
    let (all, rest) = bytes.as_chunks::<RECORD>();
    for record in all {
        Instruction::read(record)?;
    }
    if rest.is_empty() {
        Ok(())
    } else {
        Err(Refusal::BrokenRecord)
    }
}

// "10 length not ten times a number up to 4,096, then 8".
pub fn check_body(body: &[u8]) -> Result<(), Refusal> {
    if !body.len().is_multiple_of(RECORD) || body.len() / RECORD > MOST {
        return Err(Refusal::BodyLength);
    }
    check_records(body)
}

// "A load or store whose data latency is not above h" (document 02, F-4), whatever its flag.
fn too_short(x: Instruction, hit_cycles: u32) -> bool {
    x.kind.has_data() && x.data_latency <= hit_cycles
}

// 17: "h above 15, or a load or store whose data latency is not above h" (document 02, F-4). The first declines an empty
// body too.
pub fn check_hits(body: &[u8], hit_cycles: u32) -> Result<(), Refusal> {
    let short = |record| too_short(Instruction::of(record), hit_cycles);
    if hit_cycles > MOST_HIT_CYCLES || records(body).iter().any(short) {
        return Err(Refusal::HitCycles);
    }
    Ok(())
}

// 10, 8, and "17, after 8": what each timing call declines, whatever the flags are.
pub fn check_timed(body: &[u8], hit_cycles: u32) -> Result<(), Refusal> {
    check_body(body)?;
    check_hits(body, hit_cycles)
}

// The same, then "11 an unknown flag".
pub fn check_settled(body: &[u8], hit_cycles: u32) -> Result<(), Refusal> {
    check_timed(body, hit_cycles)?;
    if unknowns(body) > 0 {
        return Err(Refusal::UnknownFlag);
    }
    Ok(())
}
