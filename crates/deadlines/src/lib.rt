// A deadline as a word: the number that its digits give.
#![tactic(auto)]

ghost use Rattle.std.specs.Prelude.{◌≡◌, ◌<◌};
ghost use Rattle.deadlines.specs.Deadline.{deadline_of};

// One or more decimal digits, whose number fits 32 bits. `str::parse` would take a sign too.
pub fn deadline_of(word: &[u8]) -> Option<u32>
    ensures { result ≡ deadline_of word.now }
{
    if word.is_empty() {
        return None;
    }
    let mut cycles = 0u32;
    for byte in word {
        let digit = char::from(*byte).to_digit(10)?;
        cycles = cycles.checked_mul(10)?.checked_add(digit)?;
    }
    Some(cycles)
}
