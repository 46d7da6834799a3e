// The traces that the time on a shared bus has to cover: "every settling of the flags and every added wait from 0
// to d on each missed access" (document 02, F-1). Each is a version of the trace, a body of its own.
ghost use Rattle.std.specs.Prelude.{◌<◌};

use model::{DATA_LATENCY, FETCH_LATENCY, FLAGS, Flag, Instruction, RECORD};

// An access of a version.
#[derive(Clone, Copy)]
struct Access {
    flag: Flag,
    latency: u32,
}

// In how many ways an access goes: a miss with each wait from 0 to `wait`, an unknown one also as a hit, and a
// hit in one way.
fn ways(flag: Flag, wait: u32) -> u32
    requires { wait < 65536 }
    ensures { 0 < result }
{
    match flag {
        Flag::Hit => 1,
        Flag::Miss => wait + 1,
        Flag::Unknown => wait + 2,
    }
}

// The way that the choice has for an access: its last digit to the base of how many ways there are, which goes.
fn chosen(flag: Flag, latency: u32, wait: u32, choice: &mut u32) -> Access
    requires { wait < 65536 }
{
    let all = ways(flag, wait);
    let way = *choice % all;
    *choice /= all;
    if flag == Flag::Hit || way > wait {
        return Access {
            flag: Flag::Hit,
            latency,
        };
    }
    Access {
        flag: Flag::Miss,
        latency: latency.saturating_add(way),
    }
}

// Two bytes, little endian.
fn pair(latency: u32) -> [u8; 2] {
    ((latency % 65536) as u16).to_le_bytes()
}

// The number of a version's flag; what is no flag, in a record that breaks its rules, stays.
fn number(flag: Flag, before: u8) -> u8
    requires { before < 4 }
    ensures { result < 4 }
{
    if Flag::try_from(before).is_ok() {
        flag as u8
    } else {
        before
    }
}

// Alters a record by the last digits of the choice, which go.
fn put_version(record: &mut [u8; RECORD], wait: u32, choice: &mut u32)
    requires { wait < 65536 }
{
    let x = Instruction::of(record);
    let fetch = chosen(x.fetch, x.fetch_latency, wait, choice);
    let access = chosen(x.data, x.data_latency, wait, choice);
    let flags = record[FLAGS];
    record[FLAGS] = number(fetch.flag, flags % 4) + 4 * number(access.flag, flags / 4 % 4);
    record[FETCH_LATENCY..DATA_LATENCY].copy_from_slice(&pair(fetch.latency));
    record[DATA_LATENCY..].copy_from_slice(&pair(access.latency));
}

// Nothing is put past the end.
fn put(out: &mut [u8], start: usize, record: &[u8; RECORD]) {
    if let Some(room) = out.get_mut(start..) {
        for (place, byte) in room.iter_mut().zip(record) {
            *place = *byte;
        }
    }
}

// One version of an accepted body, at the start of `out`; the versions have the choices from 0 on. Gives the
// rest of the choice, which is not 0 where there is no such version, since there are not so many.
pub fn version(body: &[u8], choice: u32, wait: u32, out: &mut [u8]) -> u32
    requires { wait < 65536 }
{
    let end = body.len().min(out.len());
    out[..end].copy_from_slice(&body[..end]);
    let mut left = choice;
    for (i, record) in model::records(body).iter().enumerate() {
        let mut altered = *record;
        put_version(&mut altered, wait, &mut left);
        put(out, RECORD * i, &altered);
    }
    left
}
