// One value for each stage that an instruction can move out of.
#![tactic(auto)]

ghost use Rattle.std.specs.Prelude.{◌≡◌};
ghost use Rattle.machine.specs.Named.{stage_named};
ghost use Rattle.stages.specs.Inner.{at_or};

use machine::Stage;

#[derive(Clone, Copy, Debug, PartialEq, Eq, Hash, Drop)]
pub struct Stages<T> {
    pub pre: T,
    pub IF: T,
    pub ID: T,
    pub EX: T,
    pub MEM: T,
    pub ST: T,
    pub WB: T,
}

impl<T: Copy> Stages<T> {
    // The stage's value; for post, out of which nothing moves, the one that is given.
    pub fn at_or(&self, stage: Stage, post: T) -> T
        ensures { result ≡ at_or self.now post (stage_named stage) }
    {
        match stage {
            Stage::Pre => self.pre,
            Stage::IF => self.IF,
            Stage::ID => self.ID,
            Stage::EX => self.EX,
            Stage::MEM => self.MEM,
            Stage::ST => self.ST,
            Stage::WB => self.WB,
            Stage::Post => post,
        }
    }
}
