//! Hints where a run that follows ends before its input.
use super::give;
use super::run::{file_of, tell};
use crate::audience::Audience;
use crate::fault::RunFault;
use crate::follow_fault::{FollowFault, fault_of_reading};
use crate::lists::ListFault;
use binlog_feed::GoOnFault;
use std::io::Eprint;
use std::rt::Files;

/// Says what a fault of a look means, and the path of its file in the list of the look.
#[cold]
#[inline(never)]
pub(crate) fn hint_look<R: Eprint + Files>(
    rt: &R,
    audience: Audience,
    fault: &RunFault,
    paths: &[String],
) {
    if audience.is_person() {
        tell_look(rt, fault, paths);
    }
}

fn tell_look<R: Eprint + Files>(rt: &R, fault: &RunFault, paths: &[String]) {
    let path = match file_of(fault) {
        Some(file) => paths.get(file),
        None => None,
    };
    match path {
        Some(path) => tell(rt, fault, Some(path.as_str())),
        None => tell(rt, fault, None),
    }
}

/// Says why a list is refused, and the path of the file in it that the line names.
#[cold]
#[inline(never)]
pub(crate) fn hint_refusal<R: Eprint + Files>(
    rt: &R,
    audience: Audience,
    fault: &GoOnFault,
    paths: &[String],
) {
    if !audience.is_person() {
        return;
    }
    match fault {
        GoOnFault::NotAtEnd => {}
        GoOnFault::DuplicateFile(file) => tell_look(rt, &RunFault::DuplicateFile(*file), paths),
        GoOnFault::OutOfOrder(_) => give(
            rt,
            "a file that an earlier list had, too, stands behind the last one of the list before: give the files in the order in which the server wrote them",
        ),
        GoOnFault::FileGone => give(
            rt,
            "the last file of the list before must be in the next list, too: where it was purged before, changes are missing",
        ),
        GoOnFault::FileShorter => give(
            rt,
            "the server lost the file's end when its machine lost power or crashed (with sync_binlog=1, too): it had been read further",
        ),
        GoOnFault::Earlier(fault) => tell(rt, &fault_of_reading(*fault), None),
        GoOnFault::Later(fault) => tell_look(rt, &fault_of_reading(*fault), paths),
    }
}

/// Says why no list is taken any more.
#[cold]
#[inline(never)]
pub(crate) fn hint_input<R: Eprint + Files>(rt: &R, audience: Audience, fault: &FollowFault) {
    if !audience.is_person() {
        return;
    }
    match fault {
        FollowFault::Input(ListFault::Unreadable) => give(
            rt,
            "standard input has a path on each line, in UTF-8, and an empty line behind each list",
        ),
        FollowFault::Ended(RunFault::Write) => tell(rt, &RunFault::Write, None),
        _ => {}
    }
}
