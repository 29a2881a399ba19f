//! Who reads standard error.
use std::rt::Env;

/// The variable of the environment that asks for hints by `1`, where standard error is no terminal.
const ASKS: &str = "BINLOGFEED_HINTS";

/// Who reads what stands on standard error.
#[derive(Clone, Copy)]
pub enum Audience {
    /// A person, who gets hints, too.
    Person,
    /// A program, which gets the line alone.
    Program,
}

impl Audience {
    /// A person reads it where it is a terminal, and where the environment asks for hints.
    pub fn of<R: Env>(rt: &R, is_terminal: bool) -> Audience {
        if is_terminal || are_asked_for(rt) {
            Audience::Person
        } else {
            Audience::Program
        }
    }

    pub(crate) fn is_person(self) -> bool {
        match self {
            Audience::Person => true,
            Audience::Program => false,
        }
    }
}

/// Whether the environment asks for hints.
fn are_asked_for<R: Env>(rt: &R) -> bool {
    let mut value = [0u8; 1];
    match rt.var(ASKS, &mut value) {
        Ok(count) => count == 1 && value[0] == b'1',
        Err(_) => false,
    }
}
