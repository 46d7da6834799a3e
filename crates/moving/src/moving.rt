// Who moves, and where to: "moves" and "will be free", from who could move, which stages are filled and
// the kinds of what stands there.
ghost use Rattle.std.specs.Prelude.{◌≡◌, false, not, ◌||◌};
ghost use Rattle.machine.specs.Test.{◌and◌};
ghost use Rattle.machine.specs.Rules.{post, next, same};
ghost use Rattle.machine.specs.Named.{kind_named, stage_named};
ghost use Rattle.machine.proofs.BySlots.{moves_at, free_at, arrives_in};
ghost use Rattle.moving.specs.Inner.{bits_of, bit_of, kind_in};

use following::next;
use machine::{Kind, Stage};
use stages::Stages;

// What a cycle finds in the stages.
#[derive(Clone, Copy, Debug, PartialEq, Eq, Hash, Drop)]
pub struct Traffic {
    // The instructions that have count 0 and are ready.
    pub going: Stages<bool>,
    pub full: Stages<bool>,
    pub kinds: Stages<Kind>,
}

// No bit is set.
pub fn none(b: Stages<bool>) -> bool
    ensures { result ≡ not (b.pre || b.IF || b.ID || b.EX || b.MEM || b.ST || b.WB) }
{
    !(b.pre | b.IF | b.ID | b.EX | b.MEM | b.ST | b.WB)
}

impl Traffic {
    // Nothing stands in post.
    fn kind(&self, stage: Stage) -> Kind
        ensures { kind_named result ≡ kind_in self.now.kinds (stage_named stage) }
    {
        self.kinds.at_or(stage, Kind::Plain)
    }

    #[cycle(moves_will_be_free)]
    fn moves(&self, stage: Stage) -> bool
        requires { same (stage_named stage) post ≡ false }
        ensures { result ≡ moves_at (bit_of self.now.going) (bit_of self.now.full) (kind_in self.now.kinds) (stage_named stage) }
    {
        if self.going.at_or(stage, false) {
            let to = next(self.kind(stage), stage);
            return self.will_be_free(to);
        }
        false
    }

    #[cycle(moves_will_be_free)]
    fn will_be_free(&self, stage: Stage) -> bool
        ensures { result ≡ free_at (bit_of self.now.going) (bit_of self.now.full) (kind_in self.now.kinds) (stage_named stage) }
    {
        if stage == Stage::Post {
            return true;
        }
        if self.full.at_or(stage, false) {
            return self.moves(stage);
        }
        true
    }

    pub fn leaving(&self) -> Stages<bool>
        ensures { result ≡ bits_of (moves_at (bit_of self.now.going) (bit_of self.now.full) (kind_in self.now.kinds)) }
    {
        Stages {
            pre: self.moves(Stage::Pre),
            IF: self.moves(Stage::IF),
            ID: self.moves(Stage::ID),
            EX: self.moves(Stage::EX),
            MEM: self.moves(Stage::MEM),
            ST: self.moves(Stage::ST),
            WB: self.moves(Stage::WB),
        }
    }

    // Whether what leaves `from` goes to `to`.
    fn arrives(&self, leaves: bool, from: Stage, to: Stage) -> bool
        ensures { result ≡ (leaves and same (next (kind_in self.now.kinds (stage_named from)) (stage_named from)) (stage_named to)) }
    {
        if leaves {
            return next(self.kind(from), from) == to;
        }
        false
    }

    // Into which stages an instruction comes, of those that can follow each other, where these move;
    // nothing comes into pre.
    pub fn arriving(&self, moving: Stages<bool>) -> Stages<bool>
        ensures { result ≡ bits_of (arrives_in (bit_of moving) (kind_in self.now.kinds)) }
    {
        Stages {
            pre: false,
            IF: self.arrives(moving.pre, Stage::Pre, Stage::IF),
            ID: self.arrives(moving.IF, Stage::IF, Stage::ID),
            EX: self.arrives(moving.ID, Stage::ID, Stage::EX),
            MEM: self.arrives(moving.EX, Stage::EX, Stage::MEM),
            ST: self.arrives(moving.MEM, Stage::MEM, Stage::ST),
            WB: self.arrives(moving.MEM, Stage::MEM, Stage::WB),
        }
    }
}
