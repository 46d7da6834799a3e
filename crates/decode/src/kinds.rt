// Kinds and flags by name, and what the rules ask of them.
ghost use Rattle.std.specs.Prelude.{◌≡◌, ◌≤◌};
ghost use Rattle.machine.specs.Named.{flag_named, kind_named};
ghost use Rattle.machine.specs.Rules.{
  is_load,
  is_store,
  holds_fetches,
  hits,
  misses,
  carries,
  reads_in_ID,
  misses_data,
};
ghost use Rattle.record.specs.Rules.{flag_number, flag_of, kind_number, kind_of, instruction_of};

use machine::{Flag, Kind};
use record::Fields;

// A kind's number in a record. The kinds are `machine`'s and their numbers the record's, so that no impl
// of `From` could stand beside either.
pub fn kind_number(kind: Kind) -> u32
    ensures { (result ≡ kind_number (kind_named kind)) × (kind_of result ≡ kind_named kind) × (result ≤ 7) }
{
    kind as u32
}

// A number that the rules refuse reads as plain, as the definition `kind_of` has it: there is no error to
// give.
pub fn kind_of(number: u32) -> Kind
    ensures { kind_named result ≡ kind_of number }
{
    match number {
        1 => Kind::Load,
        2 => Kind::Store,
        3 => Kind::Branch,
        4 => Kind::Jump,
        _ => Kind::Plain,
    }
}

// A flag's number in a record.
pub fn flag_number(flag: Flag) -> u32
    ensures { (result ≡ flag_number (flag_named flag)) × (flag_of result ≡ flag_named flag) }
{
    flag as u32
}

// The flag of a number. One that the rules refuse reads as unknown, as the definition `flag_of` has it.
pub fn flag_of(number: u32) -> Flag
    ensures { flag_named result ≡ flag_of number }
{
    match number {
        0 => Flag::Hit,
        1 => Flag::Miss,
        _ => Flag::Unknown,
    }
}

pub fn kind(f: Fields) -> Kind
    ensures { kind_named result ≡ (instruction_of f).kind }
{
    kind_of(f.kind)
}

pub fn is_load(f: Fields) -> bool
    ensures { result ≡ is_load (instruction_of f).kind }
{
    f.kind == kind_number(Kind::Load)
}

pub fn is_store(f: Fields) -> bool
    ensures { result ≡ is_store (instruction_of f).kind }
{
    f.kind == kind_number(Kind::Store)
}

// Whether it holds back the fetches of all later ones.
pub fn holds_fetches(f: Fields) -> bool
    ensures { result ≡ holds_fetches (instruction_of f).kind }
{
    (f.kind == kind_number(Kind::Branch)) | (f.kind == kind_number(Kind::Jump))
}

pub fn fetch_hits(f: Fields) -> bool
    ensures { result ≡ hits (instruction_of f).fetch }
{
    f.fetch == flag_number(Flag::Hit)
}

pub fn fetch_misses(f: Fields) -> bool
    ensures { result ≡ misses (instruction_of f).fetch }
{
    f.fetch == flag_number(Flag::Miss)
}

pub fn access_hits(f: Fields) -> bool
    ensures { result ≡ hits (instruction_of f).access }
{
    f.access == flag_number(Flag::Hit)
}

pub fn access_misses(f: Fields) -> bool
    ensures { result ≡ misses (instruction_of f).access }
{
    f.access == flag_number(Flag::Miss)
}

// Whether it is a load or store with a data miss.
pub fn misses_data(f: Fields) -> bool
    ensures { result ≡ misses_data (instruction_of f) }
{
    (is_load(f) | is_store(f)) & access_misses(f)
}

// Whether a source is this register, which carries nothing if it is register 0.
fn carries(source: u32, register: u32) -> bool
    ensures { result ≡ carries source register }
{
    (register != 0) & (source == register)
}

// Whether it needs a register in ID: its sources, but for a store's second, the value to be stored.
pub fn reads_in_id(f: Fields, register: u32) -> bool
    ensures { result ≡ reads_in_ID (instruction_of f) register }
{
    carries(f.source1, register) | (!is_store(f) & carries(f.source2, register))
}
