// Where an instruction stands after a number of cycles, from its times.
ghost use Rattle.std.specs.Prelude.{◌≡◌};
ghost use Rattle.machine.specs.Rules as Rules;
ghost use Rattle.machine.specs.Rules.{next};
ghost use Rattle.machine.specs.Named.{stage_named};
ghost use Rattle.machine.specs.Hits.{with_hit};
ghost use Rattle.machine.proofs.Window.{place_at};
ghost use Rattle.record.specs.Rules.{instruction_of};
ghost use Rattle.schedule.specs.Inner.{times_of};
ghost use Rattle.places.specs.Inner.{place_named};

use decode::{count_in_if, count_in_last, count_in_mem, kind};
use following::next;
use machine::Stage;
use record::Fields;
use schedule::Times;

// A stage and a remaining count.
#[derive(Clone, Copy, Debug, PartialEq, Eq, Hash, Drop)]
pub struct Place {
    pub stage: Stage,
    pub count: u32,
}

// The stage after MEM.
fn last_stage(f: Fields) -> Stage
    ensures { stage_named result ≡ next (instruction_of f).kind Rules.MEM }
{
    next(kind(f), Stage::MEM)
}

pub fn place_at(f: Fields, e: Times, t: u32, hit_cycles: u32) -> Place
    ensures { place_named result ≡ place_at (with_hit hit_cycles (instruction_of f)) (times_of e) t }
{
    if t < e.IF {
        return Place {
            stage: Stage::Pre,
            count: 0,
        };
    }
    if t < e.ID {
        return Place {
            stage: Stage::IF,
            count: count_in_if(f).saturating_sub(t - e.IF),
        };
    }
    if t < e.EX {
        return Place {
            stage: Stage::ID,
            count: 0,
        };
    }
    if t < e.MEM {
        return Place {
            stage: Stage::EX,
            count: f.execution.saturating_sub(t - e.EX),
        };
    }
    if t < e.last {
        return Place {
            stage: Stage::MEM,
            count: count_in_mem(f, hit_cycles).saturating_sub(t - e.MEM),
        };
    }
    if t < e.post {
        return Place {
            stage: last_stage(f),
            count: count_in_last(f, hit_cycles).saturating_sub(t - e.last),
        };
    }
    Place {
        stage: Stage::Post,
        count: 0,
    }
}
