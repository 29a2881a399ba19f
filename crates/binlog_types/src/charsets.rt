//! The character sets of collations, by their numbers in a table map.
ghost use Rattle.std.specs.Prelude.{◌≡◌, ℕ, List, option_map};
ghost use Rattle.std.specs.Borrow.{Bor};
ghost use Rattle.binlog_types.specs.Charsets.{charset_in, charset_of, charset_name, encoding_of, character_table};

use crate::character_tables as tables;

/// The character sets of a MySQL 9.7.4.
#[derive(Clone, Copy, Debug, PartialEq, Eq)]
pub enum Charset {
    Armscii8,
    Ascii,
    Big5,
    Binary,
    Cp1250,
    Cp1251,
    Cp1256,
    Cp1257,
    Cp850,
    Cp852,
    Cp866,
    Cp932,
    Dec8,
    Eucjpms,
    Euckr,
    Gb18030,
    Gb2312,
    Gbk,
    Geostd8,
    Greek,
    Hebrew,
    Hp8,
    Keybcs2,
    Koi8r,
    Koi8u,
    Latin1,
    Latin2,
    Latin5,
    Latin7,
    Macce,
    Macroman,
    Sjis,
    Swe7,
    Tis620,
    Ucs2,
    Ujis,
    Utf16,
    Utf16le,
    Utf32,
    Utf8mb3,
    Utf8mb4,
}

/// Their names, as MySQL writes them, in the order of the variants.
const NAMES: [&str; 41] = [
    "armscii8", "ascii", "big5", "binary", "cp1250", "cp1251", "cp1256", "cp1257", "cp850",
    "cp852", "cp866", "cp932", "dec8", "eucjpms", "euckr", "gb18030", "gb2312", "gbk", "geostd8",
    "greek", "hebrew", "hp8", "keybcs2", "koi8r", "koi8u", "latin1", "latin2", "latin5", "latin7",
    "macce", "macroman", "sjis", "swe7", "tis620", "ucs2", "ujis", "utf16", "utf16le", "utf32",
    "utf8mb3", "utf8mb4",
];

/// How the bytes of a text are to be read.
#[derive(Clone, Copy, Debug, PartialEq, Eq)]
pub enum Encoding {
    /// As UTF-8: utf8mb4, utf8mb3 and ascii.
    Utf8,
    /// As UTF-16, the higher byte of a unit first: utf16 and ucs2.
    Utf16,
    /// As UTF-16, the lower byte of a unit first.
    Utf16le,
    /// As UTF-32, the highest byte first.
    Utf32,
    /// They are no text.
    Binary,
    /// By the character set's table of characters, where it has one.
    ByTable(Charset),
}

/// The collations from a number to another one, and their character set.
type CollationRange = (u64, u64, Charset);

/// The collations that a MySQL 9.7.4 tells in `information_schema.collations`, the usual ones first.
const COLLATIONS: [CollationRange; 93] = [
    (255, 323, Charset::Utf8mb4),
    (63, 63, Charset::Binary),
    (45, 46, Charset::Utf8mb4),
    (224, 247, Charset::Utf8mb4),
    (5, 5, Charset::Latin1),
    (8, 8, Charset::Latin1),
    (11, 11, Charset::Ascii),
    (15, 15, Charset::Latin1),
    (31, 31, Charset::Latin1),
    (33, 33, Charset::Utf8mb3),
    (47, 49, Charset::Latin1),
    (65, 65, Charset::Ascii),
    (76, 76, Charset::Utf8mb3),
    (83, 83, Charset::Utf8mb3),
    (94, 94, Charset::Latin1),
    (192, 223, Charset::Utf8mb3),
    (1, 1, Charset::Big5),
    (2, 2, Charset::Latin2),
    (3, 3, Charset::Dec8),
    (4, 4, Charset::Cp850),
    (6, 6, Charset::Hp8),
    (7, 7, Charset::Koi8r),
    (9, 9, Charset::Latin2),
    (10, 10, Charset::Swe7),
    (12, 12, Charset::Ujis),
    (13, 13, Charset::Sjis),
    (14, 14, Charset::Cp1251),
    (16, 16, Charset::Hebrew),
    (18, 18, Charset::Tis620),
    (19, 19, Charset::Euckr),
    (20, 20, Charset::Latin7),
    (21, 21, Charset::Latin2),
    (22, 22, Charset::Koi8u),
    (23, 23, Charset::Cp1251),
    (24, 24, Charset::Gb2312),
    (25, 25, Charset::Greek),
    (26, 26, Charset::Cp1250),
    (27, 27, Charset::Latin2),
    (28, 28, Charset::Gbk),
    (29, 29, Charset::Cp1257),
    (30, 30, Charset::Latin5),
    (32, 32, Charset::Armscii8),
    (34, 34, Charset::Cp1250),
    (35, 35, Charset::Ucs2),
    (36, 36, Charset::Cp866),
    (37, 37, Charset::Keybcs2),
    (38, 38, Charset::Macce),
    (39, 39, Charset::Macroman),
    (40, 40, Charset::Cp852),
    (41, 42, Charset::Latin7),
    (43, 43, Charset::Macce),
    (44, 44, Charset::Cp1250),
    (50, 52, Charset::Cp1251),
    (53, 53, Charset::Macroman),
    (54, 55, Charset::Utf16),
    (56, 56, Charset::Utf16le),
    (57, 57, Charset::Cp1256),
    (58, 59, Charset::Cp1257),
    (60, 61, Charset::Utf32),
    (62, 62, Charset::Utf16le),
    (64, 64, Charset::Armscii8),
    (66, 66, Charset::Cp1250),
    (67, 67, Charset::Cp1256),
    (68, 68, Charset::Cp866),
    (69, 69, Charset::Dec8),
    (70, 70, Charset::Greek),
    (71, 71, Charset::Hebrew),
    (72, 72, Charset::Hp8),
    (73, 73, Charset::Keybcs2),
    (74, 74, Charset::Koi8r),
    (75, 75, Charset::Koi8u),
    (77, 77, Charset::Latin2),
    (78, 78, Charset::Latin5),
    (79, 79, Charset::Latin7),
    (80, 80, Charset::Cp850),
    (81, 81, Charset::Cp852),
    (82, 82, Charset::Swe7),
    (84, 84, Charset::Big5),
    (85, 85, Charset::Euckr),
    (86, 86, Charset::Gb2312),
    (87, 87, Charset::Gbk),
    (88, 88, Charset::Sjis),
    (89, 89, Charset::Tis620),
    (90, 90, Charset::Ucs2),
    (91, 91, Charset::Ujis),
    (92, 93, Charset::Geostd8),
    (95, 96, Charset::Cp932),
    (97, 98, Charset::Eucjpms),
    (99, 99, Charset::Cp1250),
    (101, 124, Charset::Utf16),
    (128, 159, Charset::Ucs2),
    (160, 183, Charset::Utf32),
    (248, 250, Charset::Gb18030),
];

/// The character set of a collation, by its number. None where no collation has it.
#[tactic(auto, unfolding(crate::specs::Charsets::charset_of))]
pub fn charset_of(collation: u64) -> Option<Charset>
    ensures { result ≡ charset_of collation }
{
    charset_in(&COLLATIONS, collation)
}

fn charset_in(ranges: &[CollationRange], collation: u64) -> Option<Charset>
    ensures { result ≡ charset_in ranges.now collation }
{
    let mut rest = ranges;
    while let [(first, last, charset), others @ ..] = rest {
        if *first <= collation && collation <= *last {
            return Some(*charset);
        }
        rest = others;
    }
    None
}

/// How texts of a character set are to be read.
pub fn encoding_of(charset: Charset) -> Encoding
    ensures { result ≡ encoding_of charset }
{
    match charset {
        Charset::Utf8mb4 | Charset::Utf8mb3 | Charset::Ascii => Encoding::Utf8,
        Charset::Utf16 | Charset::Ucs2 => Encoding::Utf16,
        Charset::Utf16le => Encoding::Utf16le,
        Charset::Utf32 => Encoding::Utf32,
        Charset::Binary => Encoding::Binary,
        other => Encoding::ByTable(other),
    }
}

/// The code point of each byte, in a character set whose characters have one byte each. It is 0xD800, which is no character, where the
/// set has none.
#[tactic(auto, unfolding(crate::specs::Charsets::character_table))]
pub fn character_table(charset: Charset) -> Option<&'static [u16; 256]>
    ensures { option_map (λ (table : Bor (List ℕ)). table.now) result ≡ character_table charset }
{
    match charset {
        Charset::Armscii8 => Some(&tables::ARMSCII8),
        Charset::Cp1250 => Some(&tables::CP1250),
        Charset::Cp1251 => Some(&tables::CP1251),
        Charset::Cp1256 => Some(&tables::CP1256),
        Charset::Cp1257 => Some(&tables::CP1257),
        Charset::Cp850 => Some(&tables::CP850),
        Charset::Cp852 => Some(&tables::CP852),
        Charset::Cp866 => Some(&tables::CP866),
        Charset::Dec8 => Some(&tables::DEC8),
        Charset::Geostd8 => Some(&tables::GEOSTD8),
        Charset::Greek => Some(&tables::GREEK),
        Charset::Hebrew => Some(&tables::HEBREW),
        Charset::Hp8 => Some(&tables::HP8),
        Charset::Keybcs2 => Some(&tables::KEYBCS2),
        Charset::Koi8r => Some(&tables::KOI8R),
        Charset::Koi8u => Some(&tables::KOI8U),
        Charset::Latin1 => Some(&tables::LATIN1),
        Charset::Latin2 => Some(&tables::LATIN2),
        Charset::Latin5 => Some(&tables::LATIN5),
        Charset::Latin7 => Some(&tables::LATIN7),
        Charset::Macce => Some(&tables::MACCE),
        Charset::Macroman => Some(&tables::MACROMAN),
        Charset::Swe7 => Some(&tables::SWE7),
        Charset::Tis620 => Some(&tables::TIS620),
        _ => None,
    }
}

/// A character set's name, as MySQL writes it.
pub fn charset_name(charset: Charset) -> &'static str
    ensures { result.now ≡ charset_name charset }
{
    NAMES[charset as usize]
}
