//! What a file is that is no log, by its first bytes.
use std::fs::File;
use std::io::Read;
use std::rt::Files;
use std::str;

/// So many bytes are looked at. The first line of an index is mostly shorter.
const FRONT: usize = 512;

/// The number in a log's name has so many digits, or more.
const DIGITS: usize = 6;

/// What a file is that is no log, where its first bytes tell.
pub(super) fn kind_at<R: Files>(rt: &R, path: &str) -> Option<&'static str> {
    let mut front = [0u8; FRONT];
    let Ok(mut file) = File::open(rt, path) else {
        return None;
    };
    match file.read(&mut front) {
        Ok(count) => kind_in(front.get(..count).unwrap_or(&[])),
        Err(_) => None,
    }
}

/// What begins with these bytes, and is no log.
fn kind_in(front: &[u8]) -> Option<&'static str> {
    if front.starts_with(b"\x1f\x8b") {
        Some("it is a file that gzip has packed: unpack it")
    } else if front.starts_with(b"\x28\xb5\x2f\xfd") {
        Some("it is a file that zstd has packed: unpack it")
    } else if front.starts_with(b"\xfd7zXZ\0") {
        Some("it is a file that xz has packed: unpack it")
    } else if front.starts_with(b"BZh") {
        Some("it is a file that bzip2 has packed: unpack it")
    } else if front.starts_with(b"\xfdbin") {
        Some(
            "it is an encrypted log: set binlog_encryption=OFF, and begin with a new file (FLUSH BINARY LOGS)",
        )
    } else if is_index(front) {
        Some("it is an index, which lists the logs: give the logs in it")
    } else {
        None
    }
}

/// Whether the first line ends as a log's name does.
fn is_index(front: &[u8]) -> bool {
    let Ok(text) = str::from_utf8(front) else {
        return false;
    };
    let Some((line, _)) = text.split_once('\n') else {
        return false;
    };
    let Some((_, number)) = line.rsplit_once('.') else {
        return false;
    };
    number.len() >= DIGITS && number.as_bytes().iter().all(|byte| byte.is_ascii_digit())
}
