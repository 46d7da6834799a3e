// The stage that follows, with a case of its own for each stage and each kind, in the order of the
// lines of stage' in Figure 5. The figure's nop is no kind of document 01; a jump, which "goes on
// through WB" (document 02, F-6), is one of those that the figure calls no store. Each case
// is written out, so that it can be held against the figure "with a ruler" (document 02, F-5).
use super::places::Stage;
use super::trace::Kind;

// The figure: post, where the stage is ST. It asks for no kind; only a store ever stands there.
fn after_st(kind: Kind) -> Stage {
    match kind {
        Kind::Plain => Stage::Post,
        Kind::Load => Stage::Post,
        Kind::Store => Stage::Post,
        Kind::Branch => Stage::Post,
        Kind::Jump => Stage::Post,
    }
}

// The figure: post, where the stage is WB. It asks for no kind; a store never stands there.
fn after_wb(kind: Kind) -> Stage {
    match kind {
        Kind::Plain => Stage::Post,
        Kind::Load => Stage::Post,
        Kind::Store => Stage::Post,
        Kind::Branch => Stage::Post,
        Kind::Jump => Stage::Post,
    }
}

// The figure: WB, where the stage is MEM and the kind is not store; ST, where the stage is MEM and the
// kind is store.
fn after_mem(kind: Kind) -> Stage {
    match kind {
        Kind::Plain => Stage::WB,
        Kind::Load => Stage::WB,
        Kind::Branch => Stage::WB,
        Kind::Jump => Stage::WB,
        Kind::Store => Stage::ST,
    }
}

// The figure: MEM, where the stage is EX.
fn after_ex(kind: Kind) -> Stage {
    match kind {
        Kind::Plain => Stage::MEM,
        Kind::Load => Stage::MEM,
        Kind::Store => Stage::MEM,
        Kind::Branch => Stage::MEM,
        Kind::Jump => Stage::MEM,
    }
}

// The figure: EX, where the stage is ID and the kind is not nop.
fn after_id(kind: Kind) -> Stage {
    match kind {
        Kind::Plain => Stage::EX,
        Kind::Load => Stage::EX,
        Kind::Store => Stage::EX,
        Kind::Branch => Stage::EX,
        Kind::Jump => Stage::EX,
    }
}

// The figure: ID, where the stage is IF.
fn after_if(kind: Kind) -> Stage {
    match kind {
        Kind::Plain => Stage::ID,
        Kind::Load => Stage::ID,
        Kind::Store => Stage::ID,
        Kind::Branch => Stage::ID,
        Kind::Jump => Stage::ID,
    }
}

// The figure: IF, where the stage is pre.
fn after_pre(kind: Kind) -> Stage {
    match kind {
        Kind::Plain => Stage::IF,
        Kind::Load => Stage::IF,
        Kind::Store => Stage::IF,
        Kind::Branch => Stage::IF,
        Kind::Jump => Stage::IF,
    }
}

// "an instruction in post stays there"; the figure has no line for post.
fn after_post(kind: Kind) -> Stage {
    match kind {
        Kind::Plain => Stage::Post,
        Kind::Load => Stage::Post,
        Kind::Store => Stage::Post,
        Kind::Branch => Stage::Post,
        Kind::Jump => Stage::Post,
    }
}

// "Stages run pre, IF, ID, EX, MEM, then ST for a store or WB for any other kind, then post."
pub fn next(kind: Kind, stage: Stage) -> Stage {
    match stage {
        Stage::ST => after_st(kind),
        Stage::WB => after_wb(kind),
        Stage::MEM => after_mem(kind),
        Stage::EX => after_ex(kind),
        Stage::ID => after_id(kind),
        Stage::IF => after_if(kind),
        Stage::Pre => after_pre(kind),
        Stage::Post => after_post(kind),
    }
}
