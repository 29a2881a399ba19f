//! The definitions of lines, keys and histories in both styles.
ghost use Rattle.json_samples.specs.Lines.{LineWithYear, LineWithCharsets, LineWithKey, LineWithDocument, NullsInBoth, NullsInAfter, NullsInBefore, NoNulls, NullsEscaped, LineWithStatement, LineWithQuotedStatement, LineWithStatementInLatin1, LineWithStatements};
ghost use Rattle.json_samples.specs.Keys.{FourColumns, MissingColumns, KeysOfUpdate, StatementsWithoutKey};
ghost use Rattle.json_samples.specs.Histories.{FullKey, PlainKey, OtherStyle};

/// The plain line and the full one of a change, and its keys in both styles.
#[tactic(auto, unfolding(crate::proofs::OnTypes::on_types, crate::proofs::OnValues::on_values, crate::proofs::OnLines::on_lines))]
pub fn sample_lines()
    ensures line_with_year { LineWithYear }
    ensures line_with_charsets { LineWithCharsets }
    ensures line_with_key { LineWithKey }
    ensures line_with_document { LineWithDocument }
    ensures four_columns { FourColumns }
    ensures missing_columns { MissingColumns }
    ensures keys_of_update { KeysOfUpdate }
{}

/// The full lines of changes with the JSON null, and of some without it.
#[tactic(auto, unfolding(crate::proofs::OnTypes::on_types, crate::proofs::OnValues::on_values, crate::proofs::OnLines::on_lines))]
pub fn sample_json_nulls()
    ensures nulls_in_both { NullsInBoth }
    ensures nulls_in_after { NullsInAfter }
    ensures nulls_in_before { NullsInBefore }
    ensures no_nulls { NoNulls }
    ensures nulls_escaped { NullsEscaped }
{}

/// The lines of changes that are statements, in both styles, and that they have no key.
#[tactic(auto, unfolding(crate::proofs::OnTypes::on_types, crate::proofs::OnValues::on_values, crate::proofs::OnLines::on_lines))]
pub fn sample_statements()
    ensures line_with_statement { LineWithStatement }
    ensures line_with_quoted_statement { LineWithQuotedStatement }
    ensures line_with_statement_in_latin1 { LineWithStatementInLatin1 }
    ensures line_with_statements { LineWithStatements }
    ensures statements_without_key { StatementsWithoutKey }
{}

/// The history of a key over a file of two changes.
#[tactic(auto, unfolding(crate::proofs::OnTypes::on_types, crate::proofs::OnValues::on_values, crate::proofs::OnLines::on_lines))]
pub fn sample_histories()
    ensures full_key { FullKey }
    ensures plain_key { PlainKey }
    ensures other_style { OtherStyle }
{}
