//! The definitions of documents at work: what they say of bytes whose meaning is known without them. Nothing runs here.
#![tactic(auto, unfolding(crate::proofs::OnDocuments::on_documents))]

ghost use Rattle.document_samples.specs.Containers.{Arrays, Objects, Gaps, NoContainers, Overlaps, OverlappingMembers, NoKeys};
ghost use Rattle.document_samples.specs.Floats.{GreatFloats, GreatestFloats, SmallFloats, FloatTies, NoFloats};
ghost use Rattle.document_samples.specs.Inlined.{NumbersOf16Bits, NoPlaces, Places, SpelledInEntries, NotSpelledAtPlaces};
ghost use Rattle.document_samples.specs.Meanings.{JsonScalars, JsonOpaques, JsonContainers, NoMeanings, JsonByLaw};
ghost use Rattle.document_samples.specs.Moments.{PackedMoments, MomentByLaw, TextByLaw};
ghost use Rattle.document_samples.specs.Opaques.{Decimals, LeftoverDigits, LongDecimals, NoDecimals, DatesAndTimes, LastSeconds, NoDatesAndTimes, OtherTypes};
ghost use Rattle.document_samples.specs.Scalars.{Literals, NoLiterals, Integers, Doubles, PointedDoubles, GreatDoubles, GreaterDoubles, LongerExponents, SmallDoubles, SmallerDoubles, DoubleTies, Lengths, Texts, NoTypes};
ghost use Rattle.document_samples.specs.Shapes.{Shapes, Depths};
ghost use Rattle.document_samples.specs.SpelledValues.{SpelledLiterals, SpelledIntegers, IntegersNotSpelled, SpelledDoubles, SpelledTexts, SpelledContainers, ContainersNotSpelled, SpelledDepths};
ghost use Rattle.document_samples.specs.Spelling.{SmallArray, LargeObject, ObjectWithGap, NotSpelled, MembersNotSpelled, SpelledDecimals};

/// Values that have no parts.
pub fn sample_scalars()
    ensures literals { Literals }
    ensures no_literals { NoLiterals }
    ensures integers { Integers }
    ensures doubles { Doubles }
    ensures lengths { Lengths }
    ensures texts { Texts }
    ensures no_types { NoTypes }
{}

/// Doubles in documents, and FLOATs.
pub fn sample_floats()
    ensures pointed_doubles { PointedDoubles }
    ensures great_doubles { GreatDoubles }
    ensures greater_doubles { GreaterDoubles }
    ensures longer_exponents { LongerExponents }
    ensures small_doubles { SmallDoubles }
    ensures smaller_doubles { SmallerDoubles }
    ensures double_ties { DoubleTies }
    ensures great_floats { GreatFloats }
    ensures greatest_floats { GreatestFloats }
    ensures small_floats { SmallFloats }
    ensures float_ties { FloatTies }
    ensures no_floats { NoFloats }
{}

/// Arrays and objects.
pub fn sample_containers()
    ensures arrays { Arrays }
    ensures objects { Objects }
    ensures gaps { Gaps }
    ensures no_containers { NoContainers }
    ensures overlaps { Overlaps }
    ensures overlapping_members { OverlappingMembers }
    ensures no_keys { NoKeys }
{}

/// Numbers in arrays and objects.
pub fn sample_inlined()
    ensures numbers_of_16_bits { NumbersOf16Bits }
    ensures no_places { NoPlaces }
    ensures places { Places }
    ensures spelled_in_entries { SpelledInEntries }
    ensures not_spelled_at_places { NotSpelledAtPlaces }
{}

/// Values of MySQL's other types.
pub fn sample_opaques()
    ensures decimals { Decimals }
    ensures leftover_digits { LeftoverDigits }
    ensures long_decimals { LongDecimals }
    ensures no_decimals { NoDecimals }
    ensures dates_and_times { DatesAndTimes }
    ensures last_seconds { LastSeconds }
    ensures no_dates_and_times { NoDatesAndTimes }
    ensures other_types { OtherTypes }
{}

/// Packed dates and times, and what the laws of moments and of floats say.
pub fn sample_moments()
    ensures packed_moments { PackedMoments }
    ensures moment_by_law { MomentByLaw }
    ensures text_by_law { TextByLaw }
{}

/// What spells documents.
pub fn sample_spelling()
    ensures small_array { SmallArray }
    ensures large_object { LargeObject }
    ensures object_with_gap { ObjectWithGap }
    ensures not_spelled { NotSpelled }
    ensures members_not_spelled { MembersNotSpelled }
    ensures spelled_decimals { SpelledDecimals }
{}

/// What spells values of each type, containers of several members, and documents of any depth.
pub fn sample_spelled_values()
    ensures spelled_literals { SpelledLiterals }
    ensures spelled_integers { SpelledIntegers }
    ensures integers_not_spelled { IntegersNotSpelled }
    ensures spelled_doubles { SpelledDoubles }
    ensures spelled_texts { SpelledTexts }
    ensures spelled_containers { SpelledContainers }
    ensures containers_not_spelled { ContainersNotSpelled }
    ensures spelled_depths { SpelledDepths }
{}

/// What documents are apart from their text, and how deep they may be.
pub fn sample_shapes()
    ensures shapes { Shapes }
    ensures depths { Depths }
{}

/// What documents mean as JSON, and texts that are none.
pub fn sample_json()
    ensures scalars { JsonScalars }
    ensures opaques { JsonOpaques }
    ensures containers { JsonContainers }
    ensures no_json { NoMeanings }
    ensures by_law { JsonByLaw }
{}
