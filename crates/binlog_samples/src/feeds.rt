//! The definitions of what a call of a feed says of places.
ghost use Rattle.binlog_samples.specs.Feeds.{UnitsBegin, FailuresStand, MarksGoOn, ReadsEnd, ReadsFail, ReadsStop};

/// Where a feed stands, where its mark goes, and how far it has read.
pub fn sample_feeds()
    ensures units_begin { UnitsBegin }
    ensures failures_stand { FailuresStand }
    ensures marks_go_on { MarksGoOn }
    ensures reads_end { ReadsEnd }
    ensures reads_stop { ReadsStop }
    ensures reads_fail { ReadsFail }
{}
