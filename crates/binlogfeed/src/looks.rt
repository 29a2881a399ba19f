//! The lists of files that a run has looked at, for clauses alone.
ghost use Rattle.std.specs.Prelude.{◌≡◌, List, [], ◌∷◌};
ghost use Rattle.std.specs.Borrow.{ftrue};
ghost use Rattle.binlogfeed.specs.Looks.{Look};
ghost use Rattle.binlogfeed.specs.LookSteps.{look_at_files};

use binlog_frame::FileLogs;
use std::marker::{Model, PhantomData};

/// The lists of files that a run has looked at, the newest first. It has no bytes: no code reads it, and clauses state by it what a
/// run that follows has written.
#[derive(Drop)]
pub struct Looks {
    marker: PhantomData<u8>,
    pub ghost list: { List Look },
}

impl Model for Looks {
    ghost also_owns = { λ _. ftrue };
}

impl Looks {
    /// None yet.
    pub(crate) fn none() -> Looks
        ensures { result.list ≡ [] }
    {
        Looks {
            marker: PhantomData,
        }
    }

    /// Notes a look at files of the system, as their source stands. There is no other way to the list, and no source of another type has
    /// one, whose honesty could be what it likes.
    pub(crate) fn note<R, F>(&mut self, logs: &FileLogs<R, F>)
        ensures { self.new.list ≡ look_at_files logs.now ∷ self.old.list }
    {
        self.add_for(logs);
    }

    /// Adds a look, which may be said by files.
    fn add_for<R, F>(&mut self, _logs: &FileLogs<R, F>)
        ghost look: { Look }
        ensures { self.new.list ≡ look ∷ self.old.list }
    {
        self.add();
    }

    /// Adds a look. `note` alone says which.
    fn add(&mut self)
        ghost look: { Look }
        ensures { self.new.list ≡ look ∷ self.old.list }
    {}
}

/// Notes a look at files that are done with.
pub(crate) fn noted<R: Drop, F: Drop>(looks: Looks, logs: FileLogs<R, F>) -> Looks
    ensures { result.list ≡ look_at_files logs ∷ looks.list }
{
    let mut looks = looks;
    looks.note(&logs);
    looks
}
