// The stage that comes after another: `stage'(i)` of Figure 5, a case for each stage and kind, in the
// figure's order. The lines above the functions are the figure's, which has a nop and no jump. The
// comment beside a case names the case of the definition that it is.
#![tactic(auto)]

ghost use Rattle.std.specs.Prelude.{◌≡◌};
ghost use Rattle.machine.specs.Rules.{next, pre, IF, ID, EX, MEM, ST, WB, post};
ghost use Rattle.machine.specs.Named.{kind_named, stage_named};

use machine::{Kind, Stage};

// post : stage(i) ∈ {ST, WB} ∨ (stage(i) = ID ∧ opc(i) = nop)
fn after_st(kind: Kind) -> Stage
    ensures { stage_named result ≡ next (kind_named kind) ST }
{
    match kind {
        Kind::Plain => Stage::Post, // next plain ST
        Kind::Load => Stage::Post, // next load ST
        Kind::Store => Stage::Post, // next store ST
        Kind::Branch => Stage::Post, // next branch ST
        Kind::Jump => Stage::Post, // next jump ST
    }
}

// post : the same line
fn after_wb(kind: Kind) -> Stage
    ensures { stage_named result ≡ next (kind_named kind) WB }
{
    match kind {
        Kind::Plain => Stage::Post, // next plain WB
        Kind::Load => Stage::Post, // next load WB
        Kind::Store => Stage::Post, // next store WB
        Kind::Branch => Stage::Post, // next branch WB
        Kind::Jump => Stage::Post, // next jump WB
    }
}

// WB : stage(i) = MEM ∧ opc(i) ≠ store
// ST : stage(i) = MEM ∧ opc(i) = store
fn after_mem(kind: Kind) -> Stage
    ensures { stage_named result ≡ next (kind_named kind) MEM }
{
    match kind {
        Kind::Plain => Stage::WB, // next plain MEM
        Kind::Load => Stage::WB, // next load MEM
        Kind::Branch => Stage::WB, // next branch MEM
        Kind::Jump => Stage::WB, // next jump MEM
        Kind::Store => Stage::ST, // next store MEM
    }
}

// MEM : stage(i) = EX
fn after_ex(kind: Kind) -> Stage
    ensures { stage_named result ≡ next (kind_named kind) EX }
{
    match kind {
        Kind::Plain => Stage::MEM, // next plain EX
        Kind::Load => Stage::MEM, // next load EX
        Kind::Store => Stage::MEM, // next store EX
        Kind::Branch => Stage::MEM, // next branch EX
        Kind::Jump => Stage::MEM, // next jump EX
    }
}

// EX : stage(i) = ID ∧ opc(i) ≠ nop
fn after_id(kind: Kind) -> Stage
    ensures { stage_named result ≡ next (kind_named kind) ID }
{
    match kind {
        Kind::Plain => Stage::EX, // next plain ID
        Kind::Load => Stage::EX, // next load ID
        Kind::Store => Stage::EX, // next store ID
        Kind::Branch => Stage::EX, // next branch ID
        Kind::Jump => Stage::EX, // next jump ID
    }
}

// ID : stage(i) = IF
fn after_if(kind: Kind) -> Stage
    ensures { stage_named result ≡ next (kind_named kind) IF }
{
    match kind {
        Kind::Plain => Stage::ID, // next plain IF
        Kind::Load => Stage::ID, // next load IF
        Kind::Store => Stage::ID, // next store IF
        Kind::Branch => Stage::ID, // next branch IF
        Kind::Jump => Stage::ID, // next jump IF
    }
}

// IF : stage(i) = pre
fn after_pre(kind: Kind) -> Stage
    ensures { stage_named result ≡ next (kind_named kind) pre }
{
    match kind {
        Kind::Plain => Stage::IF, // next plain pre
        Kind::Load => Stage::IF, // next load pre
        Kind::Store => Stage::IF, // next store pre
        Kind::Branch => Stage::IF, // next branch pre
        Kind::Jump => Stage::IF, // next jump pre
    }
}

// "an instruction in post stays there"; the figure has no such line.
fn after_post(kind: Kind) -> Stage
    ensures { stage_named result ≡ next (kind_named kind) post }
{
    match kind {
        Kind::Plain => Stage::Post, // next plain post
        Kind::Load => Stage::Post, // next load post
        Kind::Store => Stage::Post, // next store post
        Kind::Branch => Stage::Post, // next branch post
        Kind::Jump => Stage::Post, // next jump post
    }
}

pub fn next(kind: Kind, stage: Stage) -> Stage
    ensures { stage_named result ≡ next (kind_named kind) (stage_named stage) }
{
    match stage {
        Stage::ST => after_st(kind),
        Stage::WB => after_wb(kind),
        Stage::MEM => after_mem(kind),
        Stage::EX => after_ex(kind),
        Stage::ID => after_id(kind),
        Stage::IF => after_if(kind),
        Stage::Pre => after_pre(kind),
        Stage::Post => after_post(kind),
    }
}
