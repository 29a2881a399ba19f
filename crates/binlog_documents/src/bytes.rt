//! Lengths of variable width, and texts.
ghost use Rattle.std.specs.Prelude.{◌≡◌, ◌<◌, ◌≤◌, ◌+◌, ◌^◌, length, option_map, IfSome};
ghost use Rattle.binlog_documents.specs.Scalars.{length_at, counted_at, utf8_text};

/// A length of at most so many bytes, and how many it takes. MySQL's `read_variable_length` looks at five.
#[tactic(auto, unfolding(crate::specs::Scalars::length_at))]
pub(crate) fn length_at(bytes: &[u8], most: usize) -> Option<(usize, usize)>
    requires { most ≤ 5 }
    ensures value { result ≡ length_at most bytes.now }
    ensures few { IfSome result (λ l. l.0 < 128 ^ most) }
    ensures within { IfSome result (λ l. l.1 ≤ length bytes.now) }
{
    if most == 0 {
        return None;
    }
    let [first, rest @ ..] = bytes else {
        return None;
    };
    let first = usize::from(*first);
    if first < 128 {
        return Some((first, 1));
    }
    let (above, len) = length_at(rest, most - 1)?;
    Some((first - 128 + 128 * above, len + 1))
}

/// The length of a string: at most five bytes, and mostly one.
#[inline(always)]
#[tactic(auto, unfolding(crate::specs::Scalars::length_at))]
pub(crate) fn text_length_at(bytes: &[u8]) -> Option<(usize, usize)>
    ensures value { result ≡ length_at 5 bytes.now }
    ensures within { IfSome result (λ l. l.1 ≤ length bytes.now) }
{
    match bytes {
        [first, ..] if *first < 128 => Some((usize::from(*first), 1)),
        _ => length_at(bytes, 5),
    }
}

/// The bytes behind their length, and how many both take.
#[tactic(auto, unfolding(crate::specs::Scalars::counted_at))]
pub(crate) fn counted_at(bytes: &[u8]) -> Option<(&[u8], usize)>
    ensures value { option_map (λ c. (c.0.now, c.1)) result ≡ counted_at bytes.now }
    ensures within { IfSome result (λ c. c.1 ≤ length bytes.now) }
{
    let (len, begin) = length_at(bytes, 5)?;
    if len > bytes.len() - begin {
        return None;
    }
    Some((&bytes[begin..begin + len], begin + len))
}

/// The bytes as text, where they are UTF-8.
pub(crate) fn utf8_text(bytes: &[u8]) -> Option<&str>
    ensures { option_map (λ s. s.now) result ≡ utf8_text bytes.now }
{
    match str::from_utf8(bytes) {
        Ok(text) => Some(text),
        Err(_) => None,
    }
}
