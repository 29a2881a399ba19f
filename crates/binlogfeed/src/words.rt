//! What the words of the command line ask for.
ghost use Rattle.std.specs.Prelude.{◌≡◌, ◌≢◌, [], IfOk, codes, true, false, Some, option_map};
ghost use Rattle.clap.specs.Words.{subcommand_rows_of};
ghost use Rattle.binlogfeed.specs.Options.{rows_given};
ghost use Rattle.binlogfeed.specs.KeyWords.{value_given};
ghost use Rattle.binlogfeed.specs.Words.{IsParserFault, AnswersFound, AnswersTaken, AnswersWords, texts, files_given, follows_given, is_true_text, profile_given, profile_of, style_given, style_of};

use crate::commands::program;
use crate::key_words::key_of;
use crate::options::{filter_given, text_given};
use crate::start_words::start_given;
use crate::words_fault::WordsFault;
use binlog_feed::Start;
use binlog_json::Style;
use binlog_profile::Profile;
use binlog_select::Filter;
use clap::error::ErrorKind;
use clap::{ArgMatches, Error};
use std::alloc::{AllocError, Global};

/// What the program is asked for.
#[derive(Drop)]
pub enum Order<'a> {
    /// A task, over these files.
    Once {
        task: Task<'a>,
        profile: Profile,
        files: Vec<&'a str>,
    },
    /// A line for each row change of files that grow, of these first: behind the start, if it passes the filter.
    Follow {
        filter: Filter,
        start: Start,
        style: Style,
        profile: Profile,
        files: Vec<&'a str>,
    },
}

/// What is done with files.
#[derive(Drop)]
pub enum Task<'a> {
    /// A line is written for each unit.
    Transactions,
    /// A line is written for each row change behind the start that passes the filter.
    Read {
        filter: Filter,
        start: Start,
        style: Style,
    },
    /// A line is written for each row change of the table that has the key.
    History {
        schema: &'a str,
        table: &'a str,
        key: String,
        style: Style,
    },
}

/// Why the words ask for nothing, by the parser's error.
fn refused(error: Error) -> WordsFault
    ensures { IsParserFault error result }
{
    match error.kind() {
        ErrorKind::DisplayHelp => WordsFault::Help(error),
        ErrorKind::OutOfMemory => WordsFault::OutOfMemory,
        _ => WordsFault::CommandLine(Some(error)),
    }
}

/// What the words ask for. The program's name is the first of them.
pub fn read_words<'a>(alloc: Global, words: &'a [&'a str]) -> Result<Order<'a>, WordsFault>
    ensures answers { AnswersWords (texts words.entry.now) result }
    ensures taken { AnswersTaken (texts words.entry.now) result }
{
    let command = match program(alloc) {
        Ok(command) => command,
        Err(_) => return Err(WordsFault::OutOfMemory),
    };
    let matches = match command.try_get_matches_from(words) {
        Ok(matches) => matches,
        Err(error) => return Err(refused(error)),
    };
    order_of(alloc, &matches)
}

fn order_of<'a>(alloc: Global, matches: &ArgMatches<'a>) -> Result<Order<'a>, WordsFault>
    ensures { AnswersFound (subcommand_rows_of matches.now) result }
{
    let Some((name, inner)) = matches.subcommand() else {
        return Err(WordsFault::CommandLine(None));
    };
    if name == "transactions" {
        transactions(alloc, inner)
    } else if name == "read" {
        read(alloc, inner)
    } else if name == "history" {
        history(alloc, inner)
    } else {
        Err(WordsFault::CommandLine(None))
    }
}

fn transactions<'a>(alloc: Global, matches: &ArgMatches<'a>) -> Result<Order<'a>, WordsFault>
    ensures { AnswersFound (Some (codes "transactions", rows_given matches.now)) result }
{
    let Some(profile) = profile_given(matches) else {
        return Err(WordsFault::ProfileName);
    };
    let files = files(alloc, matches)?;
    let task = Task::Transactions;
    Ok(Order::Once {
        task,
        profile,
        files,
    })
}

fn read<'a>(alloc: Global, matches: &ArgMatches<'a>) -> Result<Order<'a>, WordsFault>
    ensures { AnswersFound (Some (codes "read", rows_given matches.now)) result }
{
    let files = files(alloc, matches)?;
    if lacks_files(&files, matches) {
        return Err(WordsFault::CommandLine(None));
    }
    let Some(profile) = profile_given(matches) else {
        return Err(WordsFault::ProfileName);
    };
    let filter = filter_given(alloc, profile, matches)?;
    let start = start_given(alloc, text_given(matches, "from"))?;
    let style = style_given(matches);
    if is_followed(matches) {
        Ok(Order::Follow {
            filter,
            start,
            style,
            profile,
            files,
        })
    } else {
        let task = Task::Read {
            filter,
            start,
            style,
        };
        Ok(Order::Once {
            task,
            profile,
            files,
        })
    }
}

/// Whether there are no files where some are needed.
fn lacks_files(files: &[&str], matches: &ArgMatches<'_>) -> bool
    ensures yes { result ≡ true → (follows_given matches.now ≡ false) × (texts files.now ≡ []) }
    ensures no { result ≡ false → follows_given matches.now ≡ false → texts files.now ≢ [] }
{
    files.is_empty() && !is_followed(matches)
}

fn history<'a>(alloc: Global, matches: &ArgMatches<'a>) -> Result<Order<'a>, WordsFault>
    ensures { AnswersFound (Some (codes "history", rows_given matches.now)) result }
{
    let Some(profile) = profile_given(matches) else {
        return Err(WordsFault::ProfileName);
    };
    let style = style_given(matches);
    let key = key_of(alloc, style, value_of(matches, "key"))?;
    let files = files(alloc, matches)?;
    let task = Task::History {
        schema: value_of(matches, "schema"),
        table: value_of(matches, "table"),
        key,
        style,
    };
    Ok(Order::Once {
        task,
        profile,
        files,
    })
}

/// The style of lines: full ones where the flag is given.
fn style_given(matches: &ArgMatches<'_>) -> Style
    ensures { result ≡ style_given (rows_given matches.now) }
{
    style_of(text_given(matches, "full"))
}

fn style_of(text: Option<&str>) -> Style
    ensures { result ≡ style_of (option_map (λ text. text.now) text.entry) }
{
    if is_true_text(text) {
        Style::Full
    } else {
        Style::Plain
    }
}

/// The profile by which the files are read. None where the words name one that there isn't.
fn profile_given(matches: &ArgMatches<'_>) -> Option<Profile>
    ensures { result ≡ profile_given (rows_given matches.now) }
{
    profile_of(text_given(matches, "profile"))
}

fn profile_of(text: Option<&str>) -> Option<Profile>
    ensures { result ≡ profile_of (option_map (λ text. text.now) text.entry) }
{
    match text {
        None => Some(Profile::Strict),
        Some(text) => {
            if text == "strict" {
                Some(Profile::Strict)
            } else if text == "server" {
                Some(Profile::Server)
            } else {
                None
            }
        }
    }
}

/// Whether a flag is given, by its value.
fn is_true_text(text: Option<&str>) -> bool
    ensures { result ≡ is_true_text (option_map (λ text. text.now) text.entry) }
{
    match text {
        None => false,
        Some(text) => text == "true",
    }
}

/// Whether files are followed.
fn is_followed(matches: &ArgMatches<'_>) -> bool
    ensures { result ≡ follows_given matches.now }
{
    is_true_text(text_given(matches, "follow"))
}

/// The value of an option that must be given.
fn value_of<'a>(matches: &ArgMatches<'a>, id: &str) -> &'a str
    ensures { result.now ≡ value_given id.now (rows_given matches.now) }
{
    text_given(matches, id).unwrap_or("")
}

/// The values of FILE.
fn files<'a>(alloc: Global, matches: &ArgMatches<'a>) -> Result<Vec<&'a str>, AllocError>
    ensures { IfOk result (λ files. texts files.items ≡ files_given (rows_given matches.now)) }
{
    match matches.get_strs("file") {
        Some(files) => copied(alloc, files),
        None => Ok(Vec::new(alloc)),
    }
}

fn copied<'a>(alloc: Global, files: &[&'a str]) -> Result<Vec<&'a str>, AllocError>
    ensures { IfOk result (λ copy. copy.items ≡ files.now) }
{
    files.iter().copied().collect(alloc)
}
