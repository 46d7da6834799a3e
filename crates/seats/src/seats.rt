// The slots of the state that Run's pass builds, in a State that is lent to the pass: one carried by
// value through the loop would be copied with the padding of its six slots.
ghost use Rattle.std.specs.Prelude.{◌+◌, ◌<◌, ◌≤◌};
ghost use Rattle.machine.specs.Hits.{with_hit};
ghost use Rattle.machine.proofs.Window.{place_at};
ghost use Rattle.record.specs.Rules.{instruction_of};
ghost use Rattle.schedule.specs.Inner.{times_of};
ghost use Rattle.seats.specs.Inner.{state_with, with_fetched, Seated};

use machine::{Slot, Stage, State};
use places::place_at;
use record::Fields;
use schedule::Times;

// Seats instruction k, which is fetched by the limit and has not left by then; that it is fetched the
// pass counts.
pub fn seat(state: &mut State, f: Fields, e: Times, limit: u32, k: u32, hit_cycles: u32)
    requires { (e.IF ≤ limit) × (limit < e.post) }
    ensures { Seated state.new (k + 1) (state_with (place_at (with_hit hit_cycles (instruction_of f)) (times_of e) limit) k (with_fetched k state.old)) }
{
    let place = place_at(f, e, limit, hit_cycles);
    let slot = Slot::holding(k, place.count);
    match place.stage {
        Stage::IF => state.IF = slot,
        Stage::ID => state.ID = slot,
        Stage::EX => state.EX = slot,
        Stage::MEM => state.MEM = slot,
        Stage::ST => state.ST = slot,
        Stage::WB => state.WB = slot,
        Stage::Pre | Stage::Post => {} // nothing under way stands there
    }
}
