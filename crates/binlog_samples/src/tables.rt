//! The definitions of table maps and of rows, over small bodies.
ghost use Rattle.binlog_samples.specs.Maps.{TwoColumns, Keys, LongSpellings, NoMapOfTwo, EightColumns, NineColumns, SeventeenColumns, ThreeColumns, ValueNames, NoLayouts};
ghost use Rattle.binlog_samples.specs.Rows.{RowsOfEight, RowsOfNine, FewOfNine, RowsOfSeventeen, UnusedBits, NoColumns, ExtraData, NinthUnsigned, SignsBehindOthers, SignsBehindNone, BehindDecimal};

/// What bodies of table maps and of rows events say.
pub fn sample_tables()
    ensures two_columns { TwoColumns }
    ensures keys { Keys }
    ensures long_spellings { LongSpellings }
    ensures no_map_of_two { NoMapOfTwo }
    ensures eight_columns { EightColumns }
    ensures nine_columns { NineColumns }
    ensures seventeen_columns { SeventeenColumns }
    ensures three_columns { ThreeColumns }
    ensures value_names { ValueNames }
    ensures no_layouts { NoLayouts }
    ensures rows_of_eight { RowsOfEight }
    ensures rows_of_nine { RowsOfNine }
    ensures few_of_nine { FewOfNine }
    ensures rows_of_seventeen { RowsOfSeventeen }
    ensures unused_bits { UnusedBits }
    ensures no_columns { NoColumns }
    ensures extra_data { ExtraData }
    ensures ninth_unsigned { NinthUnsigned }
    ensures signs_behind_others { SignsBehindOthers }
    ensures signs_behind_none { SignsBehindNone }
    ensures behind_decimal { BehindDecimal }
{}
