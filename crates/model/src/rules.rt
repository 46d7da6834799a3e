// One cycle of the core, rule by rule. "Every test is made on the state before the cycle": each of
// two passes goes over the instructions from the oldest on, and carries what the rules ask of the
// older ones. The first pass says which stages will be free, the second moves.
use super::next_stage::next;
use super::older::Older;
use super::places::{Place, STAGES, Stage, Standing};
use super::sets::Set;
use super::trace::{Flag, Instruction, Kind};

// What stands in a stage: whether one of it has a count above 0 or is not ready; and the stages that
// come next for those in it, by their kinds.
#[derive(Clone, Copy, Default)]
struct Occupants {
    wait: bool,
    next: Set,
}

// What stands in each stage but post.
fn all_occupants(row: &[Standing]) -> [Occupants; STAGES] {
    let mut older = Older::default();
    let mut all = [Occupants::default(); STAGES];
    for &s in row {
        let at = s.place;
        if at.stage != Stage::Post {
            let here = &mut all[at.stage.index()];
            here.wait |= at.count > 0 || !older.lets(s);
            here.next.insert(next(s.instruction.kind, at.stage) as u8);
            older.add(s);
        }
    }
    all
}

// "A stage will be free when it is empty or its occupant moves in this cycle; the occupant moves
// only if its own next stage will be free", which `free` says. Were there several in a stage, each
// would have to move: that there is at most one is a theorem about the rules, and not used here.
fn will_be_free(here: Occupants, free: Set) -> bool {
    !here.wait && here.next.is_within(free)
}

// The stages that will be free; "post is always free". In the figure's order each stage comes after
// those that can follow it, so that these are decided before it.
fn all_free(all: [Occupants; STAGES]) -> Set {
    let mut free = Set::default();
    free.insert(Stage::Post as u8);
    for stage in [
        Stage::ST,
        Stage::WB,
        Stage::MEM,
        Stage::EX,
        Stage::ID,
        Stage::IF,
    ] {
        if will_be_free(all[stage.index()], free) {
            free.insert(stage as u8);
        }
    }
    free
}

fn by_flag(flag: Flag, on_miss: u32, on_hit: u32) -> u32 {
    if flag == Flag::Miss { on_miss } else { on_hit }
}

// "Count on entry: IF, the fetch latency on a miss, else 0. EX, the execution latency. MEM, a
// load's data latency on a miss, else 0. ST, the data latency less 1 on a miss, else 0. All others 0."
// But "the count on entry to MEM for a load hit, and to ST for a store hit, becomes h" (document 02,
// F-4).
fn on_entry(x: Instruction, stage: Stage, hit_cycles: u32) -> u32 {
    match stage {
        Stage::IF => by_flag(x.fetch, x.fetch_latency, 0),
        Stage::EX => x.execution,
        Stage::MEM if x.kind == Kind::Load => by_flag(x.data, x.data_latency, hit_cycles),
        Stage::ST => by_flag(x.data, x.data_latency.saturating_sub(1), hit_cycles),
        _ => 0,
    }
}

// Where one stands a cycle on. "An instruction moves when its count is 0, it is ready and its next stage
// will be free." If it does not move, "a count above 0 falls by 1 and a count of 0 stays".
fn advanced(s: Standing, is_ready: bool, free: Set, hit_cycles: u32) -> Place {
    let Place { stage, count } = s.place;
    let to = next(s.instruction.kind, stage);
    if count == 0 && is_ready && free.has(to as u8) {
        return Place {
            stage: to,
            count: on_entry(s.instruction, to, hit_cycles),
        };
    }
    Place {
        stage,
        count: count.saturating_sub(1),
    }
}

// The places one cycle on, of a trace without unknown flags. "An instruction in post stays there", and
// no younger one ever waits for it.
pub fn cycle(row: &mut [Standing], hit_cycles: u32) {
    let free = all_free(all_occupants(row));
    let mut older = Older::default();
    for s in row {
        let before = *s;
        if before.place.stage != Stage::Post {
            s.place = advanced(before, older.lets(before), free, hit_cycles);
            older.add(before);
        }
    }
}
