// Numbers of one, two and four bytes, the low byte first: read from bytes, and written into an output.
#![tactic(auto)]

ghost use Rattle.std.specs.Prelude.{◌≡◌, ◌+◌, ◌<◌, ◌≤◌, ◌^◌, ◌++◌, length, take, drop};
ghost use Rattle.little_endian.specs.Numbers.{byte, half, word, half_bytes, word_bytes};

pub fn byte_at(bytes: &[u8], at: usize) -> u32
    requires { at < length bytes.now }
    ensures { (result ≡ byte bytes.now at) × (result < 256) }
{
    u32::from(bytes[at])
}

// Two bytes, the low one first.
pub fn half_at(bytes: &[u8], at: usize) -> u32
    requires { at + 1 < length bytes.now }
    ensures { (result ≡ half bytes.now at) × (result < 65536) }
{
    u32::from(u16::from_le_bytes([bytes[at], bytes[at + 1]]))
}

// The same for any bytes: a byte past the end reads as 0.
pub fn byte(bytes: &[u8], at: usize) -> u32
    ensures { (result ≡ byte bytes.now at) × (result < 256) }
{
    if at < bytes.len() {
        byte_at(bytes, at)
    } else {
        0
    }
}

// From a place of 32 bits on, so that the places after it cannot overflow.
pub fn half(bytes: &[u8], at: u32) -> u32
    ensures { (result ≡ half bytes.now at) × (result < 65536) }
{
    let i = at as usize;
    byte(bytes, i) + 256 * byte(bytes, i + 1)
}

pub fn word(bytes: &[u8], at: u32) -> u32
    ensures { (result ≡ word bytes.now at) × (result < 2 ^ 32) }
{
    let i = at as usize;
    half(bytes, at) + 65536 * (byte(bytes, i + 2) + 256 * byte(bytes, i + 3))
}

// The same two bytes and four bytes written; the other bytes of the output stay.
pub fn put_half(out: &mut [u8], at: usize, n: u32)
    requires { (at + 2 ≤ length out.old) × (n < 65536) }
    ensures { out.new ≡ take at out.old ++ half_bytes n ++ drop (at + 2) out.old }
{
    out[at..at + 2].copy_from_slice(&(n as u16).to_le_bytes());
}

pub fn put_word(out: &mut [u8], at: usize, n: u32)
    requires { at + 4 ≤ length out.old }
    ensures { out.new ≡ take at out.old ++ word_bytes n ++ drop (at + 4) out.old }
{
    out[at..at + 4].copy_from_slice(&n.to_le_bytes());
}
