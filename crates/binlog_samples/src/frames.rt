//! The definitions of the magic and of windows, at places of a small file, and of the events whose bodies are read.
ghost use Rattle.binlog_samples.specs.Frames.{Magic, Windows, NoWindows, SimpleBodies, OtherBodies};

/// Where a file has the magic, what window its next event needs, and which kinds of events have simple bodies.
pub fn sample_frames()
    ensures magic { Magic }
    ensures windows { Windows }
    ensures no_windows { NoWindows }
    ensures simple_bodies { SimpleBodies }
    ensures other_bodies { OtherBodies }
{}
