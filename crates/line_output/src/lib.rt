//! Lines on their way to a writer: they wait in a buffer until they are enough to be sent.
#![tactic(auto)]

mod fault;
mod output;

pub use fault::{AddFault, WriteFault};
pub use output::{add_line, send_enough, write_text};
