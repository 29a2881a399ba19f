//! Sets of names, which a filter looks schemas and tables up in.
ghost use Rattle.std.specs.Prelude.{◌≡◌, IfOk, MatchResult, map, string_bytes};
ghost use Rattle.std.specs.FinSet as set;

use std::alloc::AllocError;
use std::marker::Model;

/// A set of names of schemas or tables, which compare byte for byte.
///
/// The names are kept in the order of their bytes, so that a look-up is a binary search.
#[derive(Drop)]
pub struct Names {
    names: Vec<String>,
}

impl Model for Names {
    ghost use Rattle.std.specs.Prelude.{map, string_bytes};
    ghost use Rattle.std.specs.Ordering.{nat_cmp};
    ghost use Rattle.std.specs.Cmp.Lexicographic.{slice_cmp};
    ghost use Rattle.std.specs.Coded.{coded_ℕ, coded_list};
    ghost use Rattle.std.specs.FinSet as set;

    ghost Value = { set.FinSet (slice_cmp nat_cmp) };

    ghost coded = { set.code (coded_list coded_ℕ) };

    ghost view = { λ n. set.from_list (map string_bytes n.names.items) };

    ghost use Rattle.binlog_select.specs.Names.{AreInByteOrder};

    ghost invariant = { λ n. AreInByteOrder n.names.items };
}

impl From<Vec<String>> for Names {
    ghost from_gives = { λ vec names. names ≡ set.from_list (map string_bytes vec.items) };

    /// The names of a `Vec`. It takes no memory.
    fn from(names: Vec<String>) -> Names {
        let mut names = names;
        names.sort_unstable();
        Names { names }
    }
}

impl Clone for Names {
    ghost is_clone = { λ names copy. copy ≡ names };

    /// The same names, in memory of their own.
    fn clone(&self) -> Result<Names, AllocError>
        // What the trait says of each `clone`.
        ensures cases { MatchResult result (λ copy. copy ≡ self.now) (λ _. ¬ ⊥) }
        ensures same { IfOk result (λ copy. copy ≡ self.now) }
    {
        Ok(Names {
            names: self.names.clone()?,
        })
    }
}

impl Names {
    /// The names as a `Vec` again. It takes no memory.
    pub fn into_vec(self) -> Vec<String>
        ensures { set.from_list (map string_bytes result.items) ≡ self }
    {
        let Names { names } = self;
        names
    }

    /// Whether a name is in the set.
    pub fn contains(&self, name: &str) -> bool
        ensures { result ≡ set.contains self.now name.now }
    {
        self.names
            .binary_search_by(|own| own.as_str().cmp(&name))
            .is_ok()
    }
}
