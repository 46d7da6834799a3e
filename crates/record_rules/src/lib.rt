// Whether a record keeps its rules, whether a flag of one that does is unknown, and whether its data
// latency is above the cycles of a data hit. Inner functions.
#![tactic(auto)]

ghost use Rattle.std.specs.Prelude.{◌≡◌, false};
ghost use Rattle.little_endian.specs.Numbers.{byte};
ghost use Rattle.record.specs.Layout.{flags_at, fields_from};
ghost use Rattle.record.specs.Rules.{breaks_rules, has_unknown, not_above};

use little_endian::byte_at;
use machine::Kind;
use record::choose;
use record::layout::{FLAGS, RECORD_SIZE, fields_of};

// Whether a record breaks its rules. Only loads and stores have data bits and a data latency, and
// stores and branches have no target, so the limits depend on the kind: the flags byte is at most
// 10 with two flags of at most 2, and at most 2 with a fetch flag alone. Every call tests every
// record, so the tests are few and are joined by `|`, without a branch after each.
pub fn breaks_rules(bytes: &[u8; RECORD_SIZE]) -> bool
    ensures { result ≡ breaks_rules (fields_from bytes.now 0) (byte bytes.now flags_at) }
{
    let flags = byte_at(bytes, FLAGS);
    let f = fields_of(bytes);
    let kind = f.kind;
    let memory = (kind == Kind::Load as u32) | (kind == Kind::Store as u32);
    let no_target = (kind == Kind::Store as u32) | (kind == Kind::Branch as u32);
    (kind > Kind::Jump as u32)
        | (flags > choose(memory, 10, 2))
        | (f.fetch == 3)
        | (f.source1 > 31)
        | (f.source2 > 31)
        | (f.target > choose(no_target, 0, 31))
        | (f.fetch_latency == 0)
        | (memory == (f.data_latency == 0))
}

// Whether a record that breaks no rule has an unknown flag: within the rules a flag above 1 is 2.
pub fn unknown_from(bytes: &[u8; RECORD_SIZE]) -> bool
    requires { breaks_rules (fields_from bytes.now 0) (byte bytes.now flags_at) ≡ false }
    ensures { result ≡ has_unknown (fields_from bytes.now 0) }
{
    let f = fields_of(bytes);
    (f.fetch > 1) | (f.access > 1)
}

// Whether it is a load or store whose data latency is not above the cycles that a data hit takes.
pub fn not_above_from(bytes: &[u8; RECORD_SIZE], hit_cycles: u32) -> bool
    ensures { result ≡ not_above (fields_from bytes.now 0) hit_cycles }
{
    let f = fields_of(bytes);
    ((f.kind == Kind::Load as u32) | (f.kind == Kind::Store as u32))
        & (f.data_latency <= hit_cycles)
}
