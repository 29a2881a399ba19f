//! Values of SET columns in full lines: the names of the members, read by the character set.
ghost use Rattle.std.specs.Prelude.{◌≡◌, None, OnOk, IfOk};
ghost use Rattle.binlog_types.specs.Charsets.{encoding_of};
ghost use Rattle.binlog_json.specs.Encodings.{comma_in, joined_by, joined_text, texts_of};
ghost use Rattle.binlog_json.specs.Reading.{HasRead};
ghost use Rattle.binlog_json.specs.FullValues.{members_text, members_as};
ghost use Rattle.binlog_json.specs.Growth.{Gathers, Prints};

use crate::encodings::Decoder;
use crate::full_values::{append_in_charset, is_binary};
use crate::lines::Line;
use crate::room::Room;
use crate::values::append_encoded;
use binlog_types::{Charset, Encoding, encoding_of};
use std::alloc::AllocError;

/// The members of a SET in a character set.
pub(crate) fn append_members(
    out: &mut Line,
    room: &mut Room,
    charset: Option<Charset>,
    members: &[&[u8]],
) -> Result<(), AllocError>
    ensures { OnOk result (Prints out.old out.new (members_text charset (texts_of members.now))) }
{
    match charset {
        None => append_joined(out, room, members),
        Some(charset) => {
            if is_binary(encoding_of(charset)) {
                return append_joined(out, room, members);
            }
            append_members_in(out, room, charset, members)
        }
    }
}

/// The bytes of all members, parted by commas.
fn append_joined(out: &mut Line, room: &mut Room, members: &[&[u8]]) -> Result<(), AllocError>
    ensures { OnOk result (Prints out.old out.new (members_text None (texts_of members.now))) }
{
    room.names.clear();
    join(&mut room.names, b",", members)?;
    append_encoded(out, &mut room.quoter, &mut room.text, &room.names)
}

/// The texts of all members, or else their bytes, parted by commas.
fn append_members_in(
    out: &mut Line,
    room: &mut Room,
    charset: Charset,
    members: &[&[u8]],
) -> Result<(), AllocError>
    ensures { OnOk result (Prints out.old out.new (members_as charset (texts_of members.now))) }
{
    let encoding = encoding_of(charset);
    room.text.clear();
    if read_all(&mut room.decoder, &mut room.text, encoding, members)? {
        return room.quoter.append(out, room.text.as_str());
    }
    room.names.clear();
    join(&mut room.names, comma_in(encoding), members)?;
    append_in_charset(out, &mut room.quoter, &mut room.text, charset, &room.names)
}

/// A comma in an encoding.
fn comma_in(encoding: Encoding) -> &'static [u8]
    ensures { result.now ≡ comma_in encoding }
{
    match encoding {
        Encoding::Utf16 => b"\0,",
        Encoding::Utf16le => b",\0",
        Encoding::Utf32 => b"\0\0\0,",
        Encoding::Utf8 | Encoding::Binary | Encoding::ByTable(_) => b",",
    }
}

/// Appends the texts of all members, parted by commas. Whether each is a text: if not, some of them may have been appended.
fn read_all(
    decoder: &mut Decoder,
    text: &mut String,
    encoding: Encoding,
    members: &[&[u8]],
) -> Result<bool, AllocError>
    ensures { IfOk result (HasRead text.old text.new (joined_text encoding (texts_of members.now))) }
{
    let mut later = false;
    for name in members {
        if later {
            text.push(',')?;
        }
        if !decoder.append(text, encoding, name)? {
            return Ok(false);
        }
        later = true;
    }
    Ok(true)
}

/// Appends all members, with something between each two.
fn join(bytes: &mut Vec<u8>, between: &[u8], members: &[&[u8]]) -> Result<(), AllocError>
    ensures { OnOk result (Gathers bytes.old bytes.new (joined_by between.now (texts_of members.now))) }
{
    let mut later = false;
    for name in members {
        if later {
            bytes.extend_from_slice(between)?;
        }
        bytes.extend_from_slice(name)?;
        later = true;
    }
    Ok(())
}
