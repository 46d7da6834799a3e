// The generator: Marsaglia's xorshift of 64 bits, from a fixed seed, so that every run is the same.
ghost use Rattle.std.specs.Prelude.{◌<◌};

#[derive(Clone, Copy)]
pub struct Dice(u64);

impl Dice {
    // As every run begins.
    pub const SEED: Dice = Dice(88172645463325252);

    pub fn rolled(self) -> Dice {
        let a = self.0 ^ (self.0 << 13);
        let b = a ^ (a >> 7);
        Dice(b ^ (b << 17))
    }

    // A number below n, which is 1 to 65,536, from the bits above `at`.
    pub fn part(self, at: u32, n: u64) -> u32
        ensures short { result < 65536 }
        ensures below { 0 < n → result < n }
    {
        if at > 50 || n == 0 {
            return 0;
        }
        ((self.0 >> at) % n % 65536) as u32
    }

    // The same as a byte.
    pub fn small(self, at: u32, n: u64) -> u8
        ensures { 0 < n → result < n }
    {
        (self.part(at, n) % 256) as u8
    }

    // A byte to damage a record with: any, or every other time one below 16, which as a kind or as flags may
    // keep the rules or just break them, and as a target is a register.
    pub fn damage(self) -> u8 {
        let n = if self.part(45, 2) == 0 { 16 } else { 256 };
        self.small(30, n)
    }
}
