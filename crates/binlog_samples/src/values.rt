//! The definitions of values of columns, dates and times among them, and of packed numbers, over their bytes.
ghost use Rattle.binlog_samples.specs.Values.{Integers, WideIntegers, Floats, BitFields, Enums, Sets, Texts, Blobs, Decimals, DecimalGroups, DecimalGroupsBelowZero, WideDecimals, BadDecimals};
ghost use Rattle.binlog_samples.specs.Times.{Dates, DateTimes, Times, TimesBelowZero, Timestamps};
ghost use Rattle.binlog_samples.specs.Packed.{PackedNumbers, LongNumbers, NoNumbers};

/// What bytes of values and of packed numbers say.
pub fn sample_values()
    ensures integers { Integers }
    ensures wide_integers { WideIntegers }
    ensures floats { Floats }
    ensures bit_fields { BitFields }
    ensures enums { Enums }
    ensures sets { Sets }
    ensures texts { Texts }
    ensures blobs { Blobs }
    ensures decimals { Decimals }
    ensures decimal_groups { DecimalGroups }
    ensures decimal_groups_below_zero { DecimalGroupsBelowZero }
    ensures wide_decimals { WideDecimals }
    ensures bad_decimals { BadDecimals }
    ensures dates { Dates }
    ensures date_times { DateTimes }
    ensures times { Times }
    ensures times_below_zero { TimesBelowZero }
    ensures timestamps { Timestamps }
    ensures packed_numbers { PackedNumbers }
    ensures long_numbers { LongNumbers }
    ensures no_numbers { NoNumbers }
{}
