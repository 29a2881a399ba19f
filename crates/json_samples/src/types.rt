//! The definitions of the types that table maps declare, and of the character sets of collations.
ghost use Rattle.json_samples.specs.Types.{BehindYear, CharsetsOfEach, CharsetsOfNames, Sizes, ServerVectors, VectorDimensions, BehindVector, NoCharsets, FieldsOfTexts, FieldsOfNames, UnknownCollations, TwoFields, ShortFields, Exceptions, SignBits, LastSign, OtherTypes, Widths, Digits, LongChar, UntoldSizes, MixedColumns};
ghost use Rattle.json_samples.specs.Collations.{Unicode, WesternLetters, OtherLetters, EastAsian, Unknown};

/// What the maps of real servers and maps by hand declare, and the character set of each collation.
pub fn sample_types()
    ensures behind_year { BehindYear }
    ensures charsets_of_each { CharsetsOfEach }
    ensures charsets_of_names { CharsetsOfNames }
    ensures sizes { Sizes }
    ensures server_vectors { ServerVectors }
    ensures vector_dimensions { VectorDimensions }
    ensures behind_vector { BehindVector }
    ensures no_charsets { NoCharsets }
    ensures fields_of_texts { FieldsOfTexts }
    ensures fields_of_names { FieldsOfNames }
    ensures unknown_collations { UnknownCollations }
    ensures two_fields { TwoFields }
    ensures short_fields { ShortFields }
    ensures exceptions { Exceptions }
    ensures sign_bits { SignBits }
    ensures last_sign { LastSign }
    ensures other_types { OtherTypes }
    ensures widths { Widths }
    ensures digits { Digits }
    ensures long_char { LongChar }
    ensures untold_sizes { UntoldSizes }
    ensures mixed_columns { MixedColumns }
    ensures unicode { Unicode }
    ensures western_letters { WesternLetters }
    ensures other_letters { OtherLetters }
    ensures east_asian { EastAsian }
    ensures unknown { Unknown }
{}
