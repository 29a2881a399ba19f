//! Strings of JSON, at the end of bytes.
ghost use Rattle.std.specs.Prelude.{◌≡◌, ◌++◌, OnOk};
ghost use Rattle.json.specs.Print.{quoted};

use json::Writer;
use std::alloc::AllocError;

/// The text as a string, in quotes and escaped.
pub(crate) fn push_quoted(out: &mut Vec<u8>, text: &str) -> Result<(), AllocError>
    ensures { OnOk result (out.new.items ≡ out.old.items ++ quoted text.now) }
{
    // A writer makes room ahead, up to 16 KiB behind a long text: so it has a text of its own.
    let mut writer = Writer::new(Vec::new(*out.allocator()));
    writer.string(text)?;
    out.extend_from_slice(&writer.into_inner())
}
