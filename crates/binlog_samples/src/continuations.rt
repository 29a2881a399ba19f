//! The definitions of files that go on, over small files.
ghost use Rattle.binlog_samples.specs.Continuations.{FileGrows, FileWithoutUnits, FilesGoOn, FileIsKept, TwoAreGone, FaultIsMended, AllAtOnce, TwoAreKept, ClosedBytes, LastIsClosed, KeptIsClosed, LastIsRotated, LastIsOpened, AnewAfterFirst};

/// Which files continue others, and what stands behind tokens when files have gone on.
pub fn sample_continuations()
    ensures file_grows { FileGrows }
    ensures file_without_units { FileWithoutUnits }
    ensures files_go_on { FilesGoOn }
    ensures file_is_kept { FileIsKept }
    ensures two_are_gone { TwoAreGone }
    ensures fault_is_mended { FaultIsMended }
    ensures all_at_once { AllAtOnce }
    ensures two_are_kept { TwoAreKept }
    ensures closed_bytes { ClosedBytes }
    ensures last_is_closed { LastIsClosed }
    ensures kept_is_closed { KeptIsClosed }
    ensures last_is_rotated { LastIsRotated }
    ensures last_is_opened { LastIsOpened }
    ensures anew_after_first { AnewAfterFirst }
{}
