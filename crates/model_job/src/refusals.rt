// What the call declines, and T, both by what Open says of a file.
use model::Refusal;

// "The count T of traces, 0 to 16" (document 01).
const MOST_TRACES: u32 = 16;

// Open's "9 trace number not below T", which is the trace number's fault and no fault of the file.
fn is_past_last(file: &[u8], trace: u32) -> bool {
    model::open(file, trace) == Err(Refusal::NoSuchTrace)
}

// "1 to 8 as in Open": what Open declines trace 0 for, where that is not 9. "A file is accepted when nothing but
// 9 can decline it, so T = 0 is accepted too" (document 01).
fn check_file(file: &[u8]) -> Result<(), Refusal> {
    match model::open(file, 0) {
        Ok(_) | Err(Refusal::NoSuchTrace) => Ok(()),
        Err(refusal) => Err(refusal),
    }
}

// T of an accepted file: the lowest trace number that Open declines, since it is "not below T".
fn traces_in(file: &[u8]) -> u32 {
    let mut traces = 0..MOST_TRACES;
    traces
        .find(|&trace| is_past_last(file, trace))
        .unwrap_or(MOST_TRACES)
}

// The body of a trace that Open hands back.
pub fn body_of(file: &[u8], trace: u32) -> Option<&[u8]> {
    file.get(model::open(file, trace).ok()?)
}

// "17, after 8: h above 15, or a load or store whose data latency is not above h" (document 02, F-4), of any trace
// of an accepted file. The first declines a file without traces too.
fn check_hits(file: &[u8], traces: u32, hit_cycles: u32) -> Result<(), Refusal> {
    model::check_hits(b"", hit_cycles)?;
    for trace in 0..traces {
        if let Some(body) = body_of(file, trace) {
            model::check_hits(body, hit_cycles)?;
        }
    }
    Ok(())
}

// "1 to 8 as in Open, then 16: the list has fewer than T places" (document 02, F-2), with 17 after 8; gives T where
// nothing declines the call.
pub fn check_job(file: &[u8], places: usize, hit_cycles: u32) -> Result<u32, Refusal> {
    check_file(file)?;
    let traces = traces_in(file);
    check_hits(file, traces, hit_cycles)?;
    if places < traces as usize {
        return Err(Refusal::FewPlaces);
    }
    Ok(traces)
}
