//! Hints: what stands below the line on standard error where that is a terminal, or where BINLOGFEED_HINTS=1 asks for them.
//!
//! Programs read the line alone, so a hint says nothing that they need. No clause speaks of it. None of this is called where a run goes
//! well, but for a history without a line: the loops of a run are compiled as if there were no hints.

mod follow;
mod kinds;
mod opening;
mod run;
mod words;

pub(crate) use follow::{hint_input, hint_look, hint_refusal};
pub(crate) use opening::hint_unopened;
pub(crate) use run::{hint_no_line, hint_run};
use std::io::Eprint;
pub(crate) use words::hint_words;

/// Writes a hint on standard error. Where it can't be written, there is none.
fn give<R: Eprint>(rt: &R, hint: &str) {
    let _ = rt.eprint("hint: ");
    let _ = rt.eprintln(hint);
}
