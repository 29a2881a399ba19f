//! Hints where the words of the command line are refused: what is wrong with them, and the help to try.
use super::give;
use crate::audience::Audience;
use crate::words_fault::WordsFault;
use clap::Error;
use std::rt::Runtime;

/// The last line of clap's messages. The help to try stands in its place.
const CLAPS_LAST_LINE: &str = "For more information, try '--help'.\n";

/// Says what is wrong with the words, of which there are none where they aren't text.
#[cold]
#[inline(never)]
pub(crate) fn hint_words<R: Runtime + AllocGlobal>(
    rt: &R,
    audience: Audience,
    words: &[&str],
    fault: &WordsFault,
) {
    if !audience.is_person() {
        return;
    }
    match fault {
        WordsFault::Help(_) | WordsFault::OutOfMemory => {}
        WordsFault::CommandLine(error) => {
            explain(rt, words, error);
            try_help(rt, words);
        }
        WordsFault::EventName(_)
        | WordsFault::Set(_)
        | WordsFault::Token
        | WordsFault::Key
        | WordsFault::ProfileName => {
            give(rt, value_wanted(fault));
            try_help(rt, words);
        }
    }
}

/// What a value looks like where this one is refused.
fn value_wanted(fault: &WordsFault) -> &'static str {
    match fault {
        WordsFault::EventName(_) => {
            "--only-events takes insert, update and delete, with --profile server also statement, parted by commas and \
            without blanks: insert,update"
        }
        WordsFault::Set(_) => {
            "--auto-position takes GTID sets, parted by commas and counted from 0, each a source and its numbers: \
            3e11fa47-71ca-11e1-9e33-c80aa9429562:1-5:7"
        }
        WordsFault::Token => "--from takes the whole token of a line: 3406.1@binlog.000001",
        WordsFault::Key => {
            "--key takes a JSON array of the key's values, in quotes for the shell: '[7]', or '[7,\"a\"]' for a key of two columns"
        }
        WordsFault::ProfileName => "--profile takes strict or server",
        WordsFault::Help(_) | WordsFault::CommandLine(_) | WordsFault::OutOfMemory => "",
    }
}

/// Says why the words are no command line: mostly the parser has said so.
fn explain<R: Runtime + AllocGlobal>(rt: &R, words: &[&str], error: &Option<Error>) {
    match error {
        Some(error) => say_error(rt, error),
        None => give(rt, what_is_missing(words)),
    }
}

/// Writes the parser's message, without its last line.
fn say_error<R: Runtime + AllocGlobal>(rt: &R, error: &Error) {
    if let Ok(text) = format!(in rt.alloc(); "{error}") {
        let text = text.as_str();
        let _ = rt.eprint(text.strip_suffix(CLAPS_LAST_LINE).unwrap_or(text));
    }
}

/// What is missing in words that the parser takes, or was not given.
fn what_is_missing(words: &[&str]) -> &'static str {
    match words.len() {
        0 => "a word of the command line isn't UTF-8",
        1 => "a subcommand is missing: read, history or transactions",
        _ => "a FILE is missing: only with --follow may there be none",
    }
}

/// Names the help of the subcommand that is meant, or else of the program.
fn try_help<R: Runtime + AllocGlobal>(rt: &R, words: &[&str]) {
    let _ = rt.eprintln(match words.get(1) {
        Some(word) if *word == "read" => "Try 'binlogfeed read --help'",
        Some(word) if *word == "history" => "Try 'binlogfeed history --help'",
        Some(word) if *word == "transactions" => "Try 'binlogfeed transactions --help'",
        _ => "Try 'binlogfeed --help'",
    });
}
