//! Names of files, as tokens have them.
ghost use Rattle.std.specs.Prelude.{◌≡◌, ◌↔◌, IfOk, IsTrue, string_bytes};
ghost use Rattle.binlog_select.specs.Token.{IsFileName};

use std::alloc::{AllocError, Global};
use std::marker::Model;

/// The name of a log file.
#[derive(Drop)]
pub struct FileName {
    name: String,
}

impl Model for FileName {
    ghost use Rattle.std.specs.Prelude.{List, ℕ, string_bytes};

    ghost Value = { List ℕ };

    ghost view = { λ f. string_bytes f.name };
}

impl From<String> for FileName {
    ghost from_gives = { λ string file. file ≡ string_bytes string };

    /// The name in a `String`. It takes no memory.
    fn from(name: String) -> FileName {
        FileName { name }
    }
}

impl FileName {
    /// A copy of a name.
    pub fn from_str(alloc: Global, name: &str) -> Result<FileName, AllocError>
        ensures { IfOk result (λ file. file ≡ name.now) }
    {
        Ok(FileName {
            name: String::from_str(alloc, name)?,
        })
    }

    /// The name as text.
    pub fn as_str(&self) -> &str
        ensures { result.now ≡ self.now }
    {
        self.name.as_str()
    }

    /// The `String` back again. It takes no memory.
    pub fn into_string(self) -> String
        ensures { string_bytes result ≡ self }
    {
        let FileName { name } = self;
        name
    }
}

/// Whether a text is the last part of a path: not empty, and without `/`.
pub(crate) fn is_file_name(name: &str) -> bool
    ensures { IsTrue result ↔ IsFileName name.now }
{
    !name.is_empty() && !name.as_bytes().contains(&b'/')
}
