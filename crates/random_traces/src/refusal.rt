// What the engine and the second model answer where they decline: each has names of its own for the numbers of the
// documents.

pub trait Refusal: Copy {
    fn numbered(self) -> u32;
}

impl Refusal for record::Refusal {
    fn numbered(self) -> u32 {
        self.number()
    }
}

impl Refusal for model::Refusal {
    fn numbered(self) -> u32 {
        self.number()
    }
}

// The number of an answer's refusal, 0 where nothing declined the call.
pub fn number_of<T, R: Refusal>(answer: &Result<T, R>) -> u32 {
    match answer {
        Ok(_) => 0,
        Err(refusal) => refusal.numbered(),
    }
}

// Both decline for one reason, or neither does and what they give is alike.
pub fn agree<T, U, F: FnOnce(&T, &U) -> bool + Drop>(
    ours: &Result<T, record::Refusal>,
    told: &Result<U, model::Refusal>,
    alike: F,
) -> bool
    requires { F.IsAlwaysCallable alike }
{
    match (ours, told) {
        (Ok(a), Ok(b)) => alike(a, b),
        _ => number_of(ours) == number_of(told),
    }
}
