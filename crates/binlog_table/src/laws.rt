//! What holds of all values, images, rows and bodies: each has one reading.
ghost use Rattle.std.specs.Prelude.{◌≡◌, ◌≤◌, ◌↔◌, ℕ, List, ◌++◌, length, take, drop, Option, Some, Ok, Bool, []};
ghost use Rattle.binlog_table.specs.declared.column.Column.{Column};
ghost use Rattle.binlog_table.specs.declared.rows_head.RowsHead.{RowsHead};
ghost use Rattle.binlog_table.specs.Value.{Content};
ghost use Rattle.binlog_table.specs.Image.{Spells, IsImage, image_at};
ghost use Rattle.binlog_table.specs.RowsBody.{RowsParts, IsRowsBody, rows_parts_at};
ghost use Rattle.binlog_table.specs.Rows.{Row, AreRows, SpellsRows, rows_in, rows_of};
ghost use Rattle.binlog_table.specs.Map.{Sections, sections_at};
ghost use Rattle.binlog_table.specs.ProfileMaps.{StrictOrAlike, StrictIsNamed, NamedIsStrict, ServerNeedsNoNames};
ghost use Rattle.binlog_table.specs.MapBody.{IsMapBody};
ghost use Rattle.binlog_table.specs.MapLists.{AreColumnNames, AreKeyColumns, AreNameLists, AreValueNames};
ghost use Rattle.binlog_table.specs.Names.{column_names, key_from, value_names};

/// No spelling of a value begins another under the same column, and no image begins another under the same columns.
pub fn spellings_are_apart()
    ensures values { (column : Column) (a b x y : List ℕ) (v w : Content) →
        Spells column v a → Spells column w b → a ++ x ≡ b ++ y → (v ≡ w) × (a ≡ b) }
    ensures images { (columns : List Column) (present a b x y : List ℕ) (cells others : List Content) →
        IsImage columns present cells a → IsImage columns present others b → a ++ x ≡ b ++ y → (cells ≡ others) × (a ≡ b) }
{}

/// Reading an image from the front finds its one spelling there, and misses none.
pub fn images_are_read()
    ensures found { (columns : List Column) (present bytes : List ℕ) (cells : List Content) (n : ℕ) →
        image_at columns present bytes ≡ Some (cells, n) → (n ≤ length bytes) × IsImage columns present cells (take n bytes) }
    ensures only { (columns : List Column) (present text rest : List ℕ) (cells : List Content) →
        IsImage columns present cells text → image_at columns present (text ++ rest) ≡ Some (cells, length text) }
{}

/// The rows to the end of some bytes are one list, which reading finds.
pub fn rows_are_read()
    ensures found { (columns : List Column) (before after : Option (List ℕ)) (bytes : List ℕ) (rows : List Row) →
        rows_in columns before after bytes ≡ Some rows → AreRows columns before after rows bytes }
    ensures only { (columns : List Column) (before after : Option (List ℕ)) (bytes : List ℕ) (rows : List Row) →
        AreRows columns before after rows bytes → rows_in columns before after bytes ≡ Some rows }
{}

/// The body of a rows event has at most one reading under a table map: one head and one list of rows.
pub fn rows_bodies_have_one_reading()
    ensures head { (kind columns : ℕ) (p q : RowsParts) (body : List ℕ) →
        IsRowsBody kind columns p body → IsRowsBody kind columns q body → p ≡ q }
    ensures found { (kind : ℕ) (columns : List Column) (body : List ℕ) (rows : List Row) →
        rows_of kind columns body ≡ Some rows → SpellsRows kind columns rows body }
    ensures only { (kind : ℕ) (columns : List Column) (body : List ℕ) (rows : List Row) →
        SpellsRows kind columns rows body → rows_of kind columns body ≡ Some rows }
    ensures one { (kind : ℕ) (columns : List Column) (body : List ℕ) (rows others : List Row) →
        SpellsRows kind columns rows body → SpellsRows kind columns others body → rows ≡ others }
{}

/// The body of a table map has at most one reading, which reading its sections finds.
pub fn map_bodies_have_one_reading()
    ensures found { (body : List ℕ) (s : Sections) → sections_at body ≡ Ok s → IsMapBody s body }
    ensures only { (s : Sections) (body : List ℕ) → IsMapBody s body → sections_at body ≡ Ok s }
    ensures one { (s t : Sections) (body : List ℕ) → IsMapBody s body → IsMapBody t body → s ≡ t }
{}

/// What reading finds in the fields of column names and of the key is spelled there, and it misses none.
pub fn map_fields_are_read()
    ensures names_found { (count : ℕ) (value : List ℕ) (names : List (List ℕ)) →
        column_names count (Some value) ≡ Ok (Some names) → AreColumnNames count names value }
    ensures names_only { (count : ℕ) (value : List ℕ) (names : List (List ℕ)) →
        AreColumnNames count names value → column_names count (Some value) ≡ Ok (Some names) }
    ensures key_found { (prefixed : Bool) (count : ℕ) (value key : List ℕ) →
        key_from (length value) prefixed count [] value ≡ Ok key → AreKeyColumns prefixed count key value }
    ensures key_only { (prefixed : Bool) (count : ℕ) (value key : List ℕ) →
        AreKeyColumns prefixed count key value → key_from (length value) prefixed count [] value ≡ Ok key }
{}

/// What reading finds in the fields of the names of ENUM and SET values is spelled there, and it misses none. A field
/// spells one list of lists of names.
pub fn value_names_are_read()
    ensures found { (columns : List Column) (sets enums : Option (List ℕ)) (names : List (Option (List (List ℕ)))) →
        value_names columns sets enums ≡ Ok names → AreValueNames columns sets enums names }
    ensures only { (columns : List Column) (sets enums : Option (List ℕ)) (names : List (Option (List (List ℕ)))) →
        AreValueNames columns sets enums names → value_names columns sets enums ≡ Ok names }
    ensures one { (value : List ℕ) (lists others : List (List (List ℕ))) →
        AreNameLists lists value → AreNameLists others value → lists ≡ others }
{}

/// The strict profile refuses the table maps that lack the names of their columns, and those with a VECTOR, and reads all others as the
/// server's does. The server's refuses none for missing names.
pub fn profiles_read_maps()
    ensures alike { StrictOrAlike }
    ensures named { StrictIsNamed }
    ensures strict { NamedIsStrict }
    ensures taken { ServerNeedsNoNames }
{}
