//! What the values of options name.
ghost use Rattle.std.specs.Prelude.{◌≡◌, Some, IfOk, IfErr, option_map};
ghost use Rattle.clap.specs.Words.{Text, first_of};
ghost use Rattle.binlog_select.specs.declared.kind.ChangeKind.TheVariants.{Statement};
ghost use Rattle.binlogfeed.specs.Options.{rows_given, words_in, names_in, names_listed, NamesKinds, IsGiven, IsSetGiven, gives, IsKindOf, IsEventFault, IsFirstBadWord, IsSetFault, AnswersOptions};
ghost use Rattle.binlogfeed.specs.Words.{texts};

use crate::words_fault::WordsFault;
use binlog_profile::Profile;
use binlog_select::{ChangeKind, Filter, GtidSet, Kinds, Names, SetFault};
use clap::ArgMatches;
use std::alloc::{AllocError, Global};

/// The filter that the options' values name, for a profile. Event names are judged before the GTID set.
pub(crate) fn filter_given(
    alloc: Global,
    profile: Profile,
    matches: &ArgMatches<'_>,
) -> Result<Filter, WordsFault>
    ensures { AnswersOptions profile (rows_given matches.now) result }
{
    let only_events = kinds_given(alloc, profile, text_given(matches, "only-events"))?;
    let auto_position = set_given(alloc, profile, text_given(matches, "auto-position"))?;
    let tables = lists_given(alloc, matches, "only-tables", "ignored-tables")?;
    let schemas = lists_given(alloc, matches, "only-schemas", "ignored-schemas")?;
    Ok(Filter {
        only_events,
        only_tables: tables.only,
        ignored_tables: tables.ignored,
        only_schemas: schemas.only,
        ignored_schemas: schemas.ignored,
        auto_position,
        statements: gives_statements(profile),
    })
}

/// Whether statements are given by a profile.
fn gives_statements(profile: Profile) -> bool
    ensures { result ≡ gives profile Statement }
{
    match profile {
        Profile::Strict => false,
        Profile::Server => true,
    }
}

/// Names that alone are let through, and names that are not.
#[derive(Drop)]
struct Lists {
    only: Option<Names>,
    ignored: Option<Names>,
}

/// The names that two options give.
fn lists_given(
    alloc: Global,
    matches: &ArgMatches<'_>,
    only: &str,
    ignored: &str,
) -> Result<Lists, AllocError>
    ensures only { IfOk result (λ lists. lists.only ≡ names_listed only.now matches.now) }
    ensures ignored { IfOk result (λ lists. lists.ignored ≡ names_listed ignored.now matches.now) }
{
    let only = names_given(alloc, text_given(matches, only))?;
    let ignored = names_given(alloc, text_given(matches, ignored))?;
    Ok(Lists { only, ignored })
}

/// The value of an option.
pub(crate) fn text_given<'a>(matches: &ArgMatches<'a>, id: &str) -> Option<&'a str>
    ensures { option_map (λ text. text.now) result ≡ first_of id.now (rows_given matches.now) }
{
    matches.get_str(id)
}

/// The kinds of change that a list names, in its order.
fn kinds_given(
    alloc: Global,
    profile: Profile,
    list: Option<&str>,
) -> Result<Option<Kinds>, WordsFault>
    ensures ok { IfOk result (IsGiven (NamesKinds profile) (option_map (λ text. text.now) list.entry)) }
    ensures err { IfErr result (IsEventFault profile (option_map (λ text. text.now) list.entry)) }
{
    match list {
        Some(list) => Ok(Some(kinds_of(alloc, profile, list)?)),
        None => Ok(None),
    }
}

fn kinds_of(alloc: Global, profile: Profile, list: &str) -> Result<Kinds, WordsFault>
    ensures ok { IfOk result (NamesKinds profile list.now) }
    ensures err { IfErr result (IsEventFault profile (Some list.now)) }
{
    let words = words_of(alloc, list)?;
    let mut kinds = Vec::new(alloc);
    'words: for word in &words {
        match kind_of(profile, word) {
            Some(kind) => kinds.push(kind)?,
            None => return Err(event_fault(alloc, word)),
        }
    }
    Ok(Kinds::from(kinds))
}

/// The fault of a word that names no kind of change.
fn event_fault(alloc: Global, word: &str) -> WordsFault
    ensures { (profile : Profile) (list : Text) → IsFirstBadWord profile list word.now → IsEventFault profile (Some list) result }
{
    match String::from_str(alloc, word) {
        Ok(word) => WordsFault::EventName(word),
        Err(_) => WordsFault::OutOfMemory,
    }
}

/// The kind of change with a name. Statements are one where the profile gives them.
fn kind_of(profile: Profile, name: &str) -> Option<ChangeKind>
    ensures { IsKindOf profile name.now result }
{
    match name {
        "insert" => Some(ChangeKind::Insert),
        "update" => Some(ChangeKind::Update),
        "delete" => Some(ChangeKind::Delete),
        "statement" if gives_statements(profile) => Some(ChangeKind::Statement),
        _ => None,
    }
}

/// The names of a list.
fn names_given(alloc: Global, list: Option<&str>) -> Result<Option<Names>, AllocError>
    ensures { IfOk result (λ names. names ≡ option_map (λ text. names_in text.now) list.entry) }
{
    match list {
        Some(list) => Ok(Some(names_of(alloc, list)?)),
        None => Ok(None),
    }
}

fn names_of(alloc: Global, list: &str) -> Result<Names, AllocError>
    ensures { IfOk result (λ names. names ≡ names_in list.now) }
{
    let words = words_of(alloc, list)?;
    let mut names = Vec::new(alloc);
    'words: for word in &words {
        let name = String::from_str(alloc, word)?;
        names.push(name)?;
    }
    Ok(Names::from(names))
}

/// The words of a list, which is parted at commas.
fn words_of<'a>(alloc: Global, list: &'a str) -> Result<Vec<&'a str>, AllocError>
    ensures { IfOk result (λ words. texts words.items ≡ words_in list.now) }
{
    list.split(',').collect(alloc)
}

/// The set that a text names by a profile.
fn set_given(
    alloc: Global,
    profile: Profile,
    text: Option<&str>,
) -> Result<Option<GtidSet>, WordsFault>
    ensures ok { IfOk result (IsSetGiven profile (option_map (λ text. text.now) text.entry)) }
    ensures err { IfErr result (IsSetFault profile (option_map (λ text. text.now) text.entry)) }
{
    let Some(text) = text else {
        return Ok(None);
    };
    match GtidSet::parse_by(alloc, profile, text) {
        Ok(set) => Ok(Some(set)),
        Err(SetFault::BadSet { at }) => Err(WordsFault::Set(at)),
        Err(SetFault::OutOfMemory) => Err(WordsFault::OutOfMemory),
    }
}
