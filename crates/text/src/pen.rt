// A pen on a lent output: each method puts its piece where the pen stands, and leaves it at the piece's
// end. `write!` would do, but it promises its text only where it succeeds, and not that it does.
ghost use Rattle.std.specs.Prelude.{◌≡◌, ◌∷◌, [], ◌≤◌, ◌<◌, ◌+◌, length};
ghost use Rattle.text.specs.Text.{decimal, spaces, right};
ghost use Rattle.text.specs.Pen.{Adds, Room};

#[derive(Drop)]
pub struct Pen<'a> {
    out: &'a mut [u8],
    at: usize,
}

impl<'a> Pen<'a> {
    // A pen at the start of an output.
    pub fn new(out: &'a mut [u8]) -> Pen<'a>
        ensures same_output { result.out.ghost_name ≡ out.entry.ghost_name }
        ensures start { (result.at ≡ 0) × (result.out.now ≡ out.old) }
    {
        Pen { out, at: 0 }
    }

    // How many bytes of the output are written.
    pub fn written(&self) -> usize
        ensures { result ≡ self.now.at }
    {
        self.at
    }

    pub fn byte(&mut self, b: u8)
        requires { Room 1 self.old }
        ensures { Adds (b ∷ []) self.old self.new }
    {
        self.out[self.at] = b;
        self.at += 1;
    }

    pub fn text(&mut self, text: &[u8])
        requires { Room (length text.now) self.old }
        ensures { Adds text.now self.old self.new }
    {
        let end = self.at + text.len();
        self.out[self.at..end].copy_from_slice(text);
        self.at = end;
    }

    pub fn decimal(&mut self, n: u32)
        requires { Room (length (decimal n)) self.old }
        ensures { Adds (decimal n) self.old self.new }
    {
        if n < 10 {
            return self.byte(digit(n));
        }
        self.decimal(n / 10);
        self.byte(digit(n % 10));
    }

    pub fn spaces(&mut self, count: usize)
        requires { Room count self.old }
        ensures { Adds (spaces count) self.old self.new }
    {
        let end = self.at + count;
        self.out[self.at..end].fill(b' ');
        self.at = end;
    }

    // The number right-aligned in a column.
    pub fn right(&mut self, width: usize, n: u32)
        requires { (length (decimal n) ≤ width) × Room width self.old }
        ensures { Adds (right width (decimal n)) self.old self.new }
    {
        self.spaces(width - digits(n));
        self.decimal(n);
    }
}

fn digit(n: u32) -> u8
    requires { n < 10 }
    ensures { result ≡ 48 + n }
{
    b'0' + n as u8
}

// How many digits a number has.
pub fn digits(n: u32) -> usize
    ensures { result ≡ length (decimal n) }
{
    n.max(1).ilog10() as usize + 1
}
