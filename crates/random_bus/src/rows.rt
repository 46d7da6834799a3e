// The engine's rows: the accesses under way in what Run gives after each number of cycles.
use machine::{Slot, State};
use model::{Place, Stage};
use model_bus::is_under_way;
use running::run;

// How many rows have an access under way, and the most that are under way in one.
#[derive(Clone, Copy, Debug, Default)]
pub struct Busy {
    pub rows: u32,
    pub most: usize,
}

fn is_busy(body: &[u8], slot: Slot, stage: Stage) -> bool {
    let at = Place {
        stage,
        count: slot.count,
    };
    slot.filled && is_under_way(model::instruction_at(body, slot.index as usize), at)
}

fn under_way(body: &[u8], s: State) -> usize {
    let slots = [
        (s.IF, Stage::IF),
        (s.ID, Stage::ID),
        (s.EX, Stage::EX),
        (s.MEM, Stage::MEM),
        (s.ST, Stage::ST),
        (s.WB, Stage::WB),
    ];
    slots
        .iter()
        .filter(|(slot, stage)| is_busy(body, *slot, *stage))
        .count()
}

// The first rows of a trace without unknown flags.
pub fn watch(body: &[u8], rows: u32, hit_cycles: u32) -> Busy {
    let mut busy = Busy::default();
    for cycle in 0..rows {
        let found = run(body, cycle, hit_cycles).map_or(0, |ran| under_way(body, ran.state));
        busy.rows = busy.rows.saturating_add(u32::from(found > 0));
        busy.most = busy.most.max(found);
    }
    busy
}
