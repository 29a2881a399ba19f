//! The story of a row: an index of all changes by their keys, and the line of each change of one key, in log order.
#![tactic(auto)]

use binlog_feed::{AtFault, Feed, FeedFault, OpenFeedFault, Start};
use binlog_frame::{FileLogs, Logs, OpenFault};
use binlog_json::{HistoryFault, KeyIndex, line};
use binlog_select::{Filter, Token};
use serde_json::{Category, Value};
use std::alloc::{AllocError, Global};
use std::env;
use std::io::ErrorKind;
use std::rt::Files;

/// Why the story isn't told to its end.
#[derive(Clone, Copy, Debug)]
enum Fault {
    /// The words aren't these.
    Wanted(&'static str),
    Open(OpenFault),
    Begin(OpenFeedFault),
    Read(HistoryFault),
    ReadAgain(AtFault),
    Print,
    OutOfMemory,
}

impl From<AllocError> for Fault {
    fn from(_: AllocError) -> Fault {
        Fault::OutOfMemory
    }
}

/// The key that a text spells, as an index has it: compact JSON.
fn compact_key(alloc: Global, text: &str) -> Result<String, Fault> {
    match Value::from_str(alloc, text) {
        Ok(key) => Ok(key.to_string(alloc)?),
        Err(error) => match error.classify() {
            Category::Memory => Err(Fault::OutOfMemory),
            _ => Err(Fault::Wanted("KEY as JSON")),
        },
    }
}

/// Opens files in the order of their paths.
fn open_files<R: Files + Clone + Drop>(
    rt: &R,
    alloc: Global,
    paths: &[&str],
) -> Result<FileLogs<R, R::File>, Fault> {
    FileLogs::open(rt, alloc, paths).map_err(Fault::Open)
}

/// An index of all changes that the feed has to come. The window becomes as long as the longest event.
fn fill_index<L: Logs>(alloc: Global, feed: &mut Feed<L>) -> Result<KeyIndex, Fault> {
    let mut index = KeyIndex::new(alloc);
    'filling: loop {
        match index.fill(feed) {
            Ok(()) => return Ok(index),
            Err(HistoryFault::Feed(FeedFault::WindowTooSmall { needed })) => {
                let larger = vec![in alloc; 0u8; needed as usize]?;
                let _smaller = feed.replace_window(larger);
            }
            Err(fault) => return Err(Fault::Read(fault)),
        }
    }
}

/// Prints the line of the change at each place.
fn print_changes<R: Print + AllocGlobal, L: Logs>(
    rt: &R,
    feed: &mut Feed<L>,
    places: &[Token],
) -> Result<(), Fault> {
    for place in places {
        let change = feed.change_at(place).map_err(Fault::ReadAgain)?;
        let text = line(rt.alloc(), &change)?;
        if println!(rt; "{text}").is_err() {
            return Err(Fault::Print);
        }
    }
    Ok(())
}

/// Prints the line of each change that the feed has to come, of the table, that has the key.
fn print_story<R: Print + AllocGlobal, L: Logs>(
    rt: &R,
    feed: &mut Feed<L>,
    schema: &str,
    table: &str,
    key: &str,
) -> Result<(), Fault> {
    let index = fill_index(rt.alloc(), feed)?;
    let places = index.places(schema, table, key)?;
    print_changes(rt, feed, places)
}

/// Prints the story of a row of the files. The feed's window has no room at first.
fn tell_story<R: Print + AllocGlobal, L: Logs + Drop>(
    rt: &R,
    logs: L,
    schema: &str,
    table: &str,
    key: &str,
) -> Result<(), Fault> {
    let window = Vec::new(rt.alloc());
    match Feed::open(rt.alloc(), logs, Filter::new(), Start::Beginning, window) {
        Ok(mut feed) => print_story(rt, &mut feed, schema, table, key),
        Err((fault, ..)) => Err(Fault::Begin(fault)),
    }
}

/// Prints the story of the row that the words name. The program's name is the first of the words.
fn answer<R: Files + Print + AllocGlobal + Clone + Drop>(
    rt: &R,
    words: &[String],
) -> Result<(), Fault> {
    let [_, schema, table, key, files @ ..] = words else {
        return Err(Fault::Wanted("SCHEMA TABLE KEY FILE.."));
    };
    let key = compact_key(rt.alloc(), key)?;
    let paths: Vec<&str> = files.iter().map(|file| file.as_str()).collect(rt.alloc())?;
    let logs = open_files(rt, rt.alloc(), &paths)?;
    tell_story(rt, logs, schema, table, &key)
}

/// The words of the command line, which must be UTF-8.
fn words_given(rt: &HostRuntime) -> Result<Vec<String>, Fault> {
    match env::args(rt) {
        Ok(words) => Ok(words.collect(rt.alloc())?),
        Err(error) => match error.kind() {
            ErrorKind::OutOfMemory => Err(Fault::OutOfMemory),
            _ => Err(Fault::Wanted("words in UTF-8")),
        },
    }
}

fn main(rt: HostRuntime) -> Result<(), Fault> {
    let words = words_given(&rt)?;
    answer(&rt, &words)
}
