//! What holds of all documents. These functions do nothing: they have contracts for proofs to cite.
ghost use Rattle.std.specs.Prelude.{◌≡◌, ℕ, List, Some};
ghost use Rattle.binlog_documents.specs.AsJson.{DocumentsAreJson};
ghost use Rattle.binlog_documents.specs.Containers.{document_at};
ghost use Rattle.binlog_documents.specs.DecimalDigits.{DecimalsAreShown};
ghost use Rattle.binlog_documents.specs.Document.{Document};
ghost use Rattle.binlog_documents.specs.DoublesReadBack.{DoublesReadBack};
ghost use Rattle.binlog_documents.specs.Moments.{DatesAreShown, MomentsAreShown, SpansAreShown};
ghost use Rattle.binlog_documents.specs.Spelling.{Spells};

/// The text of each document that bytes spell is JSON, and the value that is read there is the document's (`as_json`). Of a double or
/// a decimal that says only that its text is a number of JSON; `values_are_shown` says which one.
pub fn documents_are_json()
    ensures { DocumentsAreJson }
{}

/// What reading finds is spelled, and it finds each document that bytes spell. So they spell at most one.
pub fn documents_are_read()
    ensures found { (bytes : List ℕ) (document : Document) → document_at bytes ≡ Some document → Spells document bytes }
    ensures only { (document : Document) (bytes : List ℕ) → Spells document bytes → document_at bytes ≡ Some document }
    ensures one { (document other : Document) (bytes : List ℕ) → Spells document bytes → Spells other bytes → document ≡ other }
{}

/// Which number a double or a decimal is shown as, and which day, moment or span of time a packed number. `documents_are_json` says
/// that these texts stand there: as numbers, and as strings.
pub fn values_are_shown()
    ensures doubles { DoublesReadBack }
    ensures decimals { DecimalsAreShown }
    ensures dates { DatesAreShown }
    ensures moments { MomentsAreShown }
    ensures spans { SpansAreShown }
{}
