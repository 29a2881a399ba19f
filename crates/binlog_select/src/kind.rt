//! Kinds of row changes, and lists of them.
ghost use Rattle.std.specs.Prelude.{◌≡◌, ◌↔◌, List, IfOk, IsTrue, Contains, MatchResult};

use std::alloc::AllocError;
use std::marker::Model;

/// What a change does: MySQL's `WRITE_ROWS`, `UPDATE_ROWS` and `DELETE_ROWS` events change rows, and a `QUERY` event has a statement.
#[derive(Clone, Copy, Debug, PartialEq, Eq)]
pub enum ChangeKind {
    Insert,
    Update,
    Delete,
    /// A statement that the log has as text, such as `TRUNCATE TABLE`. It has no rows.
    Statement,
}

/// A list of kinds of change, in its own order.
#[derive(Drop)]
pub struct Kinds {
    kinds: Vec<ChangeKind>,
}

impl Model for Kinds {
    ghost use Rattle.std.specs.Prelude.{List};
    ghost use Rattle.binlog_select.specs.declared.kind.ChangeKind.{ChangeKind};

    ghost Value = { List ChangeKind };

    ghost view = { λ k. k.kinds.items };
}

impl From<Vec<ChangeKind>> for Kinds {
    ghost from_gives = { λ vec kinds. kinds ≡ vec.items };

    /// The kinds of a `Vec`. It takes no memory.
    fn from(kinds: Vec<ChangeKind>) -> Kinds {
        Kinds { kinds }
    }
}

impl Clone for Kinds {
    ghost is_clone = { λ kinds copy. copy ≡ kinds };

    /// The same kinds in the same order, in memory of their own.
    fn clone(&self) -> Result<Kinds, AllocError>
        // What the trait says of each `clone`.
        ensures cases { MatchResult result (λ copy. copy ≡ self.now) (λ _. ¬ ⊥) }
        ensures same { IfOk result (λ copy. copy ≡ self.now) }
    {
        Ok(Kinds {
            kinds: self.kinds.clone()?,
        })
    }
}

impl Kinds {
    /// The `Vec` back again. It takes no memory.
    pub fn into_vec(self) -> Vec<ChangeKind>
        ensures { result.items ≡ self }
    {
        let Kinds { kinds } = self;
        kinds
    }

    /// Whether a kind is in the list.
    pub fn contains(&self, kind: ChangeKind) -> bool
        ensures { IsTrue result ↔ Contains self.now kind }
    {
        self.kinds.contains(&kind)
    }
}
