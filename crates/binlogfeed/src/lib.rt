//! What the program does: reads binary logs of MySQL, and writes a line for each of their row changes or of their units.
#![tactic(auto)]

pub mod audience;
mod change_line;
mod commands;
mod ending;
pub mod fault;
mod feed_lines;
mod follow;
pub mod follow_fault;
mod hints;
pub mod history;
mod key_words;
mod lists;
mod look;
pub mod looks;
mod names_gone;
mod opening;
mod opening_at_end;
mod options;
pub mod program;
pub mod run;
pub mod run_on;
mod start_words;
pub mod transactions;
mod unit_line;
mod window;
pub mod words;
pub mod words_fault;
