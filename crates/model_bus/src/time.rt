// The call: "counts N, the fetches and the load and store accesses marked miss or unknown, and gives worst
// time plus N times d" (document 02, F-1).
ghost use Rattle.std.specs.Prelude.{◌≤◌};

use model::{Flag, Instruction, Refusal};

// The longest that a latency with its wait may be.
const LONGEST: u32 = 65535;

// N, and the time: none where some settling has not left by document 01's bound.
#[derive(Clone, Copy)]
pub struct BusTime {
    pub accesses: u32,
    pub time: Option<u32>,
}

// "Marked miss or unknown".
fn marked(flag: Flag) -> bool {
    flag == Flag::Miss || flag == Flag::Unknown
}

// A load or a store whose data access is marked so.
fn marked_data(x: Instruction) -> bool {
    x.kind.has_data() && marked(x.data)
}

// How many of an instruction's two accesses are counted.
fn counted(x: Instruction) -> u32
    ensures { result ≤ 2 }
{
    u32::from(marked(x.fetch)) + u32::from(marked_data(x))
}

// N.
pub fn accesses(body: &[u8]) -> u32 {
    let all = model::records(body).iter();
    all.fold(0, |found: u32, record| {
        found.saturating_add(counted(Instruction::of(record)))
    })
}

// A wait has two bytes, so that nothing wraps. A line of the cases may give a number that is no wait: then this sum and
// those of `bus_time` wrap, and are no times.
fn exceeds(latency: u32, wait: u32) -> bool {
    latency.wrapping_add(wait) > LONGEST
}

// "A counted latency plus d exceeds 65,535": the latency of an access that hits is not asked.
fn too_long(x: Instruction, wait: u32) -> bool {
    let fetch = marked(x.fetch) && exceeds(x.fetch_latency, wait);
    let access = marked_data(x) && exceeds(x.data_latency, wait);
    fetch || access
}

// "Refuses 10, 8, then 15", with "17, after 8" (document 02, F-4).
pub fn check_bus(body: &[u8], wait: u32, hit_cycles: u32) -> Result<(), Refusal> {
    model::check_timed(body, hit_cycles)?;
    let long = |record| too_long(Instruction::of(record), wait);
    if model::records(body).iter().any(long) {
        return Err(Refusal::LongWait);
    }
    Ok(())
}

// "Worst time plus N times d", over all settlings, each of which is run, of a body of at most N instructions. It is at
// most document 01's bound for the latencies with their waits, so that nothing wraps where the wait has two bytes.
pub fn bus_time<const N: usize>(
    body: &[u8],
    wait: u32,
    hit_cycles: u32,
) -> Result<BusTime, Refusal> {
    check_bus(body, wait, hit_cycles)?;
    let accesses = accesses(body);
    let waits = accesses.wrapping_mul(wait);
    let times = model::bounds::<N>(body, hit_cycles);
    Ok(BusTime {
        accesses,
        time: times.map(|t| t.worst.wrapping_add(waits)),
    })
}
