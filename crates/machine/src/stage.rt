// The stages.
ghost use Rattle.std.specs.Prelude.{◌≡◌, ◌≤◌};
ghost use Rattle.machine.specs.Rules.{stage_number};
ghost use Rattle.machine.specs.Named.{stage_named};

// In the order in which an instruction passes them: ST is a store's last stage, WB that of any other
// kind.
#[derive(Clone, Copy, Debug, PartialEq, Eq, PartialOrd, Ord, Hash, Drop)]
pub enum Stage {
    Pre,
    IF,
    ID,
    EX,
    MEM,
    ST,
    WB,
    Post,
}

impl Stage {
    // From pre 0 to post 7.
    pub fn number(self) -> u32
        ensures { (result ≡ stage_number (stage_named self)) × (result ≤ 7) }
    {
        self as u32
    }
}
