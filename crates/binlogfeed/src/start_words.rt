//! The start that `--from` names.
ghost use Rattle.std.specs.Prelude.{IfOk, IfErr, option_map};
ghost use Rattle.binlogfeed.specs.StartWords.{IsStart, IsTokenFault};

use crate::words_fault::WordsFault;
use binlog_feed::Start;
use binlog_select::{Token, TokenFault};
use std::alloc::Global;

/// The start that a text names: the token that it spells, or the beginning where there is none.
pub(crate) fn start_given(alloc: Global, text: Option<&str>) -> Result<Start, WordsFault>
    ensures ok { IfOk result (IsStart (option_map (λ text. text.now) text.entry)) }
    ensures err { IfErr result (IsTokenFault (option_map (λ text. text.now) text.entry)) }
{
    let Some(text) = text else {
        return Ok(Start::Beginning);
    };
    match Token::parse(alloc, text) {
        Ok(token) => Ok(Start::After(token)),
        Err(TokenFault::BadToken) => Err(WordsFault::Token),
        Err(TokenFault::OutOfMemory) => Err(WordsFault::OutOfMemory),
    }
}
