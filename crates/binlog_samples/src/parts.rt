//! The definitions of what looks give, by parts that they don't give.
ghost use Rattle.binlog_samples.specs.Parts.{PartsOfTwo, PartOfFirst, PartsCounted, Begins, BeginsElsewhere, BeginsElsewhereAtEnd, BeginsWithoutFault, BeginsNowhere};

/// Which parts looks give and don't give.
pub fn sample_parts()
    ensures parts_of_two { PartsOfTwo }
    ensures part_of_first { PartOfFirst }
    ensures parts_counted { PartsCounted }
{}

/// Where a run that follows begins, and what is to come there.
pub fn sample_begins()
    ensures begins { Begins }
    ensures begins_elsewhere { BeginsElsewhere }
    ensures begins_elsewhere_at_end { BeginsElsewhereAtEnd }
    ensures begins_without_fault { BeginsWithoutFault }
    ensures begins_nowhere { BeginsNowhere }
{}
