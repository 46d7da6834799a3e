// The counts with which an instruction enters its stages, where a data hit takes so many cycles. In EX
// it is the execution latency, and in ID and WB it is 0.
ghost use Rattle.std.specs.Prelude.{◌≡◌, ◌+◌, ◌≤◌};
ghost use Rattle.machine.specs.Rules.{IF, MEM, ST, entry};
ghost use Rattle.machine.specs.Hits.{with_hit};
ghost use Rattle.machine.proofs.Window.{last_count};
ghost use Rattle.record.specs.Rules.{instruction_of};
ghost use Rattle.record.specs.Body.{max_hit_cycles};
ghost use Rattle.decode.specs.Inner.{AccessLawful};

use crate::kinds::{access_misses, fetch_misses, is_load, is_store};
use record::{Fields, choose};

pub fn count_in_if(f: Fields) -> u32
    ensures { result ≡ entry (instruction_of f) IF }
{
    choose(fetch_misses(f), f.fetch_latency, 0)
}

pub fn count_in_mem(f: Fields, hit_cycles: u32) -> u32
    ensures { result ≡ entry (with_hit hit_cycles (instruction_of f)) MEM }
{
    choose(
        is_load(f),
        choose(access_misses(f), f.data_latency, hit_cycles),
        0,
    )
}

// Only a store enters ST; a state that is to be tested may say otherwise, and a kind without a data
// access has no hit.
pub fn count_in_st(f: Fields, hit_cycles: u32) -> u32
    ensures { result ≡ entry (with_hit hit_cycles (instruction_of f)) ST }
{
    let hit = choose(is_load(f) | is_store(f), hit_cycles, 0);
    choose(access_misses(f), f.data_latency.saturating_sub(1), hit)
}

// The last stage is ST for a store and WB for any other kind.
pub fn count_in_last(f: Fields, hit_cycles: u32) -> u32
    ensures { result ≡ last_count (with_hit hit_cycles (instruction_of f)) }
{
    choose(is_store(f), count_in_st(f, hit_cycles), 0)
}

// How many cycles it spends in its last stage, one more than its count there: for a store that
// misses, its data latency, which is at least 1.
pub fn cycles_in_last(f: Fields, hit_cycles: u32) -> u32
    requires { AccessLawful (instruction_of f) × (hit_cycles ≤ max_hit_cycles) }
    ensures { result ≡ last_count (with_hit hit_cycles (instruction_of f)) + 1 }
{
    choose(
        is_store(f),
        choose(access_misses(f), f.data_latency, hit_cycles + 1),
        1,
    )
}
