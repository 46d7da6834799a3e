// A case: what its line and the bytes that are laid out give of a call.
use case_text::Line;

// Where the bytes start that stand beside the input.
const BESIDE: usize = 65600;

#[derive(Clone, Copy)]
pub enum Call {
    Open,
    Write,
    Job,
    Check,
    View,
    Step,
    Run,
    Finish,
    Times,
    Margin,
    Bus,
    Alike,
}

impl Call {
    // The call whose name begins with the letter.
    fn named(letter: u8) -> Option<Call> {
        match letter {
            b'o' => Some(Call::Open),
            b'w' => Some(Call::Write),
            b'j' => Some(Call::Job),
            b'c' => Some(Call::Check),
            b'v' => Some(Call::View),
            b's' => Some(Call::Step),
            b'r' => Some(Call::Run),
            b'f' => Some(Call::Finish),
            b't' => Some(Call::Times),
            b'm' => Some(Call::Margin),
            b'b' => Some(Call::Bus),
            b'a' => Some(Call::Alike),
            _ => None,
        }
    }
}

#[derive(Clone, Copy)]
pub struct Case<'a> {
    pub line: Line<'a>,
    pub call: Call,
    // With a capital the second model is not asked.
    pub capital: bool,
    pub argument: u32,
    pub body: &'a [u8],
    pub beside: &'a [u8],
    pub hit_cycles: u32,
}

impl<'a> Case<'a> {
    // None where the line begins with no call.
    pub fn read(line: Line<'a>, bytes: &'a [u8]) -> Option<Case<'a>> {
        let letter = line.text.first()?;
        let argument = line.number(2);
        let beside = BESIDE..BESIDE + argument as usize;
        Some(Case {
            line,
            call: Call::named(letter.to_ascii_lowercase())?,
            capital: letter.is_ascii_uppercase(),
            argument,
            body: bytes.get(..line.number(1) as usize).unwrap_or(&[]),
            beside: bytes.get(beside).unwrap_or(&[]),
            hit_cycles: line.number(0),
        })
    }
}
