//! The definitions of values in full lines.
ghost use Rattle.json_samples.specs.Integers.{Tiny, Small, Medium, Long, LongLong};
ghost use Rattle.json_samples.specs.Texts.{Latin1Texts, Windows1252, OneByteTexts, NoOneByteTexts, Utf8Texts, NoUtf8, Utf16Texts, NoUtf16, Utf32Texts, NoUtf32, OtherCharsets, Binaries, NoCharset};
ghost use Rattle.json_samples.specs.Names.{Unnamed, Enums, EnumBytes, Sets, WideSets, MalformedSets, SetBytes};
ghost use Rattle.json_samples.specs.Others.{Times, Decimals, Floats, NoNumbers, Documents, NoDocuments, Vectors, NoVectors, RawValues};

/// Integers by the server's sign, texts by their character sets, values of ENUM and SET, FLOAT, DOUBLE, JSON and VECTOR, and those that plain
/// lines have, too.
pub fn sample_full_values()
    ensures tiny { Tiny }
    ensures small { Small }
    ensures medium { Medium }
    ensures long { Long }
    ensures long_long { LongLong }
    ensures latin1_texts { Latin1Texts }
    ensures windows_1252 { Windows1252 }
    ensures one_byte_texts { OneByteTexts }
    ensures no_one_byte_texts { NoOneByteTexts }
    ensures utf8_texts { Utf8Texts }
    ensures no_utf8 { NoUtf8 }
    ensures utf16_texts { Utf16Texts }
    ensures no_utf16 { NoUtf16 }
    ensures utf32_texts { Utf32Texts }
    ensures no_utf32 { NoUtf32 }
    ensures other_charsets { OtherCharsets }
    ensures binaries { Binaries }
    ensures no_charset { NoCharset }
    ensures unnamed { Unnamed }
    ensures enums { Enums }
    ensures enum_bytes { EnumBytes }
    ensures sets { Sets }
    ensures wide_sets { WideSets }
    ensures malformed_sets { MalformedSets }
    ensures set_bytes { SetBytes }
    ensures times { Times }
    ensures decimals { Decimals }
    ensures floats { Floats }
    ensures no_numbers { NoNumbers }
    ensures documents { Documents }
    ensures no_documents { NoDocuments }
    ensures vectors { Vectors }
    ensures no_vectors { NoVectors }
    ensures raw_values { RawValues }
{}
