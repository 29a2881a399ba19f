//! Texts that are parted at a byte.

ghost use Rattle.std.specs.Prelude.{◌<◌, length, IfSome, MatchOption};
ghost use Rattle.binlog_select.specs.Parts.{IsOnePart, IsParted};

/// The text before the first separator and the text after it, where there is a separator.
pub(crate) fn split_once(text: &[u8], separator: u8) -> Option<(&[u8], &[u8])>
    ensures parts { MatchOption result (IsOnePart separator text.now) (IsParted separator text.now) }
    ensures shorter { IfSome result (λ pair. length pair.1.now < length text.now) }
{
    for (at, byte) in text.iter().enumerate() {
        if *byte == separator {
            return Some((&text[..at], &text[at + 1..]));
        }
    }
    None
}
