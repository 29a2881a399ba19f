//! A feed of a run that follows: it may begin at the end of a token's file.
ghost use Rattle.std.specs.Prelude.{◌≡◌, IfOk, IfErr};
ghost use Rattle.binlog_feed.specs.FeedView.{IsSound};
ghost use Rattle.binlogfeed.specs.Looks.{told_at_end};
ghost use Rattle.binlogfeed.specs.Openings.{BeginsToFollow, FailsToOpen, NamesOpened, RefusesFileEnd, RefusesToFollow, TellsOpening};
ghost use Rattle.binlog_feed.specs.declared.start.Start.TheVariants.{After};
ghost use Rattle.binlog_feed.specs.AtEnd.{judge_end};
ghost use Rattle.binlog_feed.specs.OpenedFeeds.{GoesOnBehindFile, IfHonest};
ghost use Rattle.binlog_feed.specs.Tokens.Judgement.{Fits};
ghost use Rattle.binlog_units.specs.FeedSources.{files_in};
ghost use Rattle.binlog_frame.specs.Sources.{Keeps};
ghost use Rattle.binlog_feed.specs.FeedGoingOn.{TakesSource};

use crate::opening::{larger_window, open_feed};
use crate::window::first_window;
use binlog_feed::{Feed, OpenFeedFault, Start};
use binlog_frame::Logs;
use binlog_select::{Filter, Token};
use std::alloc::Global;

/// How it is told that a run doesn't begin at the end of a token's file.
fn told_at_end(fault: OpenFeedFault) -> OpenFeedFault
    ensures { result ≡ told_at_end fault }
{
    match fault {
        OpenFeedFault::DuplicateFile(file) => OpenFeedFault::DuplicateFile(file),
        OpenFeedFault::Read { file } => OpenFeedFault::Read { file },
        OpenFeedFault::WindowTooSmall { .. } => OpenFeedFault::OutOfMemory,
        OpenFeedFault::OutOfMemory => OpenFeedFault::OutOfMemory,
        _ => OpenFeedFault::TokenNoTransaction,
    }
}

/// Opens a feed behind the last whole unit of a token's file, where the token is that of this end. Where the window is too small, it is
/// replaced by a larger one.
fn open_end<L: Logs>(
    alloc: Global,
    logs: L,
    filter: Filter,
    token: Token,
) -> Result<Feed<L>, (L, OpenFeedFault)>
    ensures fits { IfOk result (IfHonest (λ _. judge_end (files_in L.Logs logs) token ≡ Fits)) }
    ensures goes_on { IfOk result (IfHonest (GoesOnBehindFile L.Logs logs filter token)) }
    ensures sound { IfOk result (IfHonest IsSound) }
    ensures source { IfOk result (TakesSource L.Logs logs) }
    ensures refused { IfErr result (RefusesFileEnd L.Logs logs token) }
    ensures source_back { IfErr result (λ back. Keeps L.Logs logs back.0) }
    ensures named { IfErr result (λ back. NamesOpened L.Logs logs back.1) }
    ensures told { IfErr result (λ back. TellsOpening L.Logs logs (After token) back.1) }
    ensures failed { IfErr result (λ back. FailsToOpen L.Logs logs back.0 back.1) }
{
    let Ok(first) = first_window(alloc) else {
        return Err((logs, OpenFeedFault::OutOfMemory));
    };
    let mut logs = logs;
    let mut filter = filter;
    let mut token = token;
    let mut window = first;
    'ending: loop {
        match Feed::open_at_end(alloc, logs, filter, token, window) {
            Ok(feed) => return Ok(feed),
            Err((fault, logs_back, filter_back, token_back, _window)) => {
                match larger_window(alloc, fault) {
                    Ok(larger) => {
                        logs = logs_back;
                        filter = filter_back;
                        token = token_back;
                        window = larger;
                    }
                    Err(fault) => return Err((logs_back, told_at_end(fault))),
                }
            }
        }
    }
}

/// Opens a feed. Where no transaction stands at a token, and this is that of the end of its file, the feed begins there.
pub(crate) fn open_following<L: Logs>(
    alloc: Global,
    logs: L,
    filter: Filter,
    start: Start,
    window: Vec<u8>,
) -> Result<Feed<L>, (L, OpenFeedFault)>
    ensures begins { IfOk result (IfHonest (BeginsToFollow L.Logs logs filter start)) }
    ensures sound { IfOk result (IfHonest IsSound) }
    ensures source { IfOk result (TakesSource L.Logs logs) }
    ensures refused { IfErr result (RefusesToFollow L.Logs logs start) }
    ensures source_back { IfErr result (λ back. Keeps L.Logs logs back.0) }
    ensures named { IfErr result (λ back. NamesOpened L.Logs logs back.1) }
    ensures told { IfErr result (λ back. TellsOpening L.Logs logs start back.1) }
    ensures failed { IfErr result (λ back. FailsToOpen L.Logs logs back.0 back.1) }
{
    match open_feed(alloc, logs, filter, start, window) {
        Ok(feed) => Ok(feed),
        Err((logs, filter, start, fault)) => match fault {
            OpenFeedFault::TokenNoTransaction => match start {
                Start::After(token) => match open_end(alloc, logs, filter, token) {
                    Ok(feed) => Ok(feed),
                    Err(back) => Err(back),
                },
                Start::Beginning => Err((logs, OpenFeedFault::TokenNoTransaction)),
            },
            fault => Err((logs, fault)),
        },
    }
}
