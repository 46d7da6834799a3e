// How many accesses are under way after a number of cycles, by where the instructions stand then.
use model::{Core, Flag, Instruction, Kind, Place, Stage};

// Whether x, which stands at `at`, has an access under way (document 02, F-1).
pub fn is_under_way(x: Instruction, at: Place) -> bool {
    let Place { stage, count } = at;
    match (stage, x.kind) {
        // "a missed fetch in IF .. with count above 0"
        (Stage::IF, _) => x.fetch == Flag::Miss && count > 0,
        // "or a missed load in MEM .. with count above 0"
        (Stage::MEM, Kind::Load) => x.data == Flag::Miss && count > 0,
        // "or a missed store in MEM"
        (Stage::MEM, Kind::Store) => x.data == Flag::Miss,
        // "or store in ST with count above 0"
        (Stage::ST, Kind::Store) => x.data == Flag::Miss && count > 0,
        _ => false,
    }
}

// The accesses under way in a row of a trace without unknown flags.
fn under_way<const N: usize>(core: &Core<N>) -> usize {
    let row = core.row().iter();
    row.filter(|s| is_under_way(s.instruction, s.place)).count()
}

// The rows of a trace before all have left: how many there are, how many have an access under way, and the
// most that are under way in one.
#[derive(Clone, Copy, Default)]
pub struct Watched {
    pub rows: u32,
    pub busy: u32,
    pub most: usize,
}

impl Watched {
    // A row more, with so many accesses under way. There are no more rows than document 01's bound, so that no sum is
    // ever cut off.
    fn add(&mut self, found: usize) {
        self.rows = self.rows.saturating_add(1);
        self.busy = self.busy.saturating_add(u32::from(found > 0));
        self.most = self.most.max(found);
    }
}

// The rows from the start on until all have left, and no longer than the bound on finishing times; the core has the
// places then. There are as many as the finishing time says.
pub fn watch<const N: usize>(core: &mut Core<N>, hit_cycles: u32) -> Watched {
    core.start();
    let mut watched = Watched::default();
    for _ in 0..core.bound(hit_cycles) {
        if core.all_left() {
            return watched;
        }
        watched.add(under_way(core));
        core.cycle(hit_cycles);
    }
    watched
}
