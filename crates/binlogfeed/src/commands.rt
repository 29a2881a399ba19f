//! The command line: its subcommands, with their options and their help.
ghost use Rattle.std.specs.Prelude.{◌≡◌, IfOk, false};
ghost use Rattle.clap.specs.Words.{rule_of, app_of};
ghost use Rattle.binlogfeed.specs.Words.{file_rule, flag_rule, program_app};
ghost use Rattle.binlogfeed.specs.Commands.{AddsSubcommand, IsBuilt, rule_of_words, app_of_words, value_rule};

use clap::{Arg, ArgAction, Command};
use std::alloc::{AllocError, Global};

/// The words of an option, which is given at most once.
#[derive(Clone, Copy)]
struct OptionWords {
    name: &'static str,
    value: &'static str,
    help: &'static str,
    is_required: bool,
    /// A flag has no value.
    is_flag: bool,
}

/// The words of a subcommand, which takes files behind its options.
#[derive(Clone, Copy)]
struct SubcommandWords {
    name: &'static str,
    about: &'static str,
    after_help: &'static str,
    options: &'static [OptionWords],
    /// Whether a file must be given.
    requires_files: bool,
}

const ABOUT: &str = "Reads binary log files of MySQL 8.0, and says what stands in them";

const STATUSES: &str = "\
Exit status:
  0  the files were read to their end; a last transaction that is cut short is left out
  1  something in a file can't be taken in: the line on standard error says where and what
  2  the command line or a value in it, two files with one name; with --follow one out of order
  3  a token that is none, or fits no place; with --follow a file that is gone or shorter
  4  a file can't be opened or read, or the output can't be written
  5  out of memory";

const FILE_HELP: &str = "Binary log files, as the server wrote them, in the order in which it did";

const TRANSACTIONS_ABOUT: &str =
    "Writes a line for each transaction, and each statement outside of one";

const TRANSACTIONS_AFTER: &str = "\
A line has five columns, parted by tabs: the position of the first event and the
end of the last, in bytes from the file's start; the GTID, or `-`; how it ends
(xid, commit, rollback or statement); and the file's name.

Example:
  binlogfeed transactions /var/lib/mysql/binlog.000001 /var/lib/mysql/binlog.000002";

/// What is taken in, which each subcommand can be told.
const PROFILE_OPTION: OptionWords = OptionWords {
    name: "profile",
    value: "NAME",
    help: "What is taken in: strict, the default, or server, which takes tables without column names, too",
    is_required: false,
    is_flag: false,
};

const TRANSACTIONS_OPTIONS: [OptionWords; 1] = [PROFILE_OPTION];

const TRANSACTIONS: SubcommandWords = SubcommandWords {
    name: "transactions",
    about: TRANSACTIONS_ABOUT,
    after_help: TRANSACTIONS_AFTER,
    options: &TRANSACTIONS_OPTIONS,
    requires_files: true,
};

const READ_ABOUT: &str = "Writes a line of JSON for each row change of a committed transaction";

const READ_AFTER: &str = "\
A line is one JSON object. This one is cut in three to fit here:
  {\"after\":{\"id\":7,\"price\":\"10.80\"},\"before\":{\"id\":7,\"price\":\"12.00\"},
   \"gtid\":\"3e11fa47-71ca-11e1-9e33-c80aa9429562:10\",\"kind\":\"update\",\"schema\":\"shop\",
   \"table\":\"product\",\"timestamp\":1795332186,\"token\":\"3406.1@binlog.000001\"}

  before, after  the row as it was and as it is then, by the names of its columns; an
                 insert has none before, and a delete none after: null
  gtid           the GTID of the transaction, or null where it has none
  kind           insert, update or delete
  schema, table  where the row stands
  timestamp      the time in the header of the rows event, in seconds since 1970
  token          the place of the change: the position of its transaction in the file,
                 the number of the change in the transaction, from 1, and the file

Integers are numbers; DECIMAL, dates and times are strings. Text that isn't UTF-8 is
{\"base64\":\"..\"}; FLOAT, DOUBLE, JSON, GEOMETRY and VECTOR are {\"raw\":\"..\"}, in base64.

With --full a value is what the server means by it: an integer has its sign behind a YEAR
column, too, text is read by its character set, and BINARY and BLOB are {\"base64\":\"..\"}; text
that can't be read is {\"base64\":\"..\",\"charset\":\"..\"}. These members are added:
  committed      the time of the commit, in microseconds since 1970, if the log has it
  json_null      the columns whose null is the JSON null, as after.doc, if there are some
  key            the names of the primary key's columns
  types          the type of each column, in the table's order, as `varchar latin1` or
                 `int unsigned`

With --profile server a log is taken in as servers write it by default: where a table has no
column names in the log (binlog_row_metadata=MINIMAL), its columns are @1, @2 and so on, it
has no key, and ENUM and SET are numbers. Tables with a VECTOR column are read, too. Without
it such a table ends the run.

By that profile each statement that stands by itself in the log, as TRUNCATE or ALTER TABLE,
has a line, too. Lists of tables and schemas don't apply to it; with --only-events
insert,update,delete it has none. Its members are gtid, kind, which is statement, and these:
  statements     an array of objects, one for each statement: the default schema of its
                 session, which may be empty, its text, and its timestamp
  timestamp      the time in the header of the first statement, in seconds since 1970
  token          the place as above, with the number 0

The changes stand in the order of the log. Those of a transaction that was rolled back, or
that isn't whole at the end of its file, are left out.

Without options each change has a line. With several, a change has one if all of them let
it pass. A LIST is parted by commas: shop,stock. Names are compared byte for byte, so blanks
count, and upper and lower case differ. A SET is a GTID set as MySQL writes it: a source
and its numbers, and further sources behind commas; with --profile server tags may stand
among the numbers. Write a value that begins with `-` as --option=value.

After a stop, --from TOKEN goes on: with the token of the last line that was kept, the
lines behind it follow, over the same files or over files that continue them. The token's
own file must be among the files; those before it may be left out. The filters may differ.

With --follow the program doesn't end with the files. FILE.., where given, is the first list
of files. Each further list stands on standard input: a path a line, and then an empty line;
an empty line alone means the same files again. For each list the lines of the changes that
are new are written, and an empty line behind them. The last file of the list before must be
in it; first files may be gone, and new ones may have come behind it. The end of the input
ends the program. Here --from also takes POSITION.0@FILE where the last transaction of FILE
ends at POSITION, as MySQL tells its own position.

Examples:
  binlogfeed read --only-schemas shop --ignored-tables cart,visit binlog.000001 binlog.000002
  binlogfeed read --only-events insert,update binlog.000001
  binlogfeed read --auto-position 3e11fa47-71ca-11e1-9e33-c80aa9429562:1-5:7 binlog.000001
  binlogfeed read --from 3406.1@binlog.000001 binlog.000001 binlog.000002
  binlogfeed read --full --profile server binlog.000001
  while sleep 1; do ls -v /var/lib/mysql/binlog.0*; echo; done | binlogfeed read --follow";

const READ_OPTIONS: [OptionWords; 10] = [
    OptionWords {
        name: "only-events",
        value: "LIST",
        help: "Only changes of these kinds: insert, update, delete, and with --profile server statement",
        is_required: false,
        is_flag: false,
    },
    OptionWords {
        name: "only-tables",
        value: "LIST",
        help: "Only changes of tables with these names, in any schema",
        is_required: false,
        is_flag: false,
    },
    OptionWords {
        name: "ignored-tables",
        value: "LIST",
        help: "No changes of tables with these names, in any schema",
        is_required: false,
        is_flag: false,
    },
    OptionWords {
        name: "only-schemas",
        value: "LIST",
        help: "Only changes of tables in these schemas",
        is_required: false,
        is_flag: false,
    },
    OptionWords {
        name: "ignored-schemas",
        value: "LIST",
        help: "No changes of tables in these schemas",
        is_required: false,
        is_flag: false,
    },
    OptionWords {
        name: "auto-position",
        value: "SET",
        help: "No changes of transactions with these GTIDs",
        is_required: false,
        is_flag: false,
    },
    OptionWords {
        name: "from",
        value: "TOKEN",
        help: "Only changes behind the one that has this token",
        is_required: false,
        is_flag: false,
    },
    OptionWords {
        name: "full",
        value: "",
        help: "Full lines: with the sign and the character set that the server declared, types and key",
        is_required: false,
        is_flag: true,
    },
    OptionWords {
        name: "follow",
        value: "",
        help: "Goes on over files that grow: each list of files on standard input asks for a look",
        is_required: false,
        is_flag: true,
    },
    PROFILE_OPTION,
];

const READ: SubcommandWords = SubcommandWords {
    name: "read",
    about: READ_ABOUT,
    after_help: READ_AFTER,
    options: &READ_OPTIONS,
    requires_files: false,
};

const HISTORY_ABOUT: &str = "Writes the line of each row change that has a key, in log order";

const HISTORY_AFTER: &str = "\
The lines are those of `binlogfeed read`, of the changes of one table whose row as it was, or
as it is then, has the key: the row's whole story. An update that changes the key stands in
the stories of both keys.

A key is a JSON array of the values of the primary key's columns, in the order of the key,
each as a line has it, with --full as a full line has it: integers are numbers, DECIMAL, dates
and times are strings, bytes that aren't text are {\"base64\":\"..\"}, with --full also
{\"base64\":\"..\",\"charset\":\"..\"}. However it is spelled, its compact form is compared. A table
without a primary key has no keys. Names are compared byte for byte. Write a value that begins with `-` as --option=value.

Examples, with a key of one column, of two, and one of bytes that aren't text:
  binlogfeed history --schema shop --table customer --key '[1]' binlog.000001 binlog.000002
  binlogfeed history --schema shop --table line --key '[7,2]' binlog.000001
  binlogfeed history --schema shop --table device --key '[{\"base64\":\"/+4=\"}]' binlog.000001";

const HISTORY_OPTIONS: [OptionWords; 5] = [
    OptionWords {
        name: "schema",
        value: "NAME",
        help: "The schema of the table",
        is_required: true,
        is_flag: false,
    },
    OptionWords {
        name: "table",
        value: "NAME",
        help: "The table, named without its schema",
        is_required: true,
        is_flag: false,
    },
    OptionWords {
        name: "key",
        value: "JSON",
        help: "The values of the primary key's columns, as a JSON array",
        is_required: true,
        is_flag: false,
    },
    OptionWords {
        name: "full",
        value: "",
        help: "Full lines: with the sign and the character set that the server declared, types and key",
        is_required: false,
        is_flag: true,
    },
    PROFILE_OPTION,
];

const HISTORY: SubcommandWords = SubcommandWords {
    name: "history",
    about: HISTORY_ABOUT,
    after_help: HISTORY_AFTER,
    options: &HISTORY_OPTIONS,
    requires_files: true,
};

/// One file or more, or none where none is required.
fn file_argument<'a>(alloc: Global, is_required: bool) -> Arg<'a>
    ensures rule { rule_of result ≡ record file_rule { required = is_required } }
    ensures local { result.global ≡ false }
{
    Arg::new(alloc, "file")
        .help(FILE_HELP)
        .required(is_required)
        .action(ArgAction::Append)
        .num_args(1..)
}

fn option_argument<'a>(alloc: Global, words: &'a OptionWords) -> Arg<'a>
    ensures rule { rule_of result ≡ rule_of_words words.entry.now }
    ensures local { result.global ≡ false }
{
    if words.is_flag {
        flag_argument(alloc, words)
    } else {
        value_argument(alloc, words)
    }
}

/// A flag, which is true where it is given.
fn flag_argument<'a>(alloc: Global, words: &'a OptionWords) -> Arg<'a>
    ensures rule { rule_of result ≡ flag_rule words.entry.now.name.now }
    ensures local { result.global ≡ false }
{
    Arg::new(alloc, words.name)
        .long(words.name)
        .help(words.help)
        .action(ArgAction::SetTrue)
}

/// An option with one value.
fn value_argument<'a>(alloc: Global, words: &'a OptionWords) -> Arg<'a>
    ensures rule { rule_of result ≡ value_rule words.entry.now }
    ensures local { result.global ≡ false }
{
    Arg::new(alloc, words.name)
        .long(words.name)
        .value_name(words.value)
        .help(words.help)
        .required(words.is_required)
        .action(ArgAction::Set)
}

/// A subcommand, which takes files behind its options.
fn subcommand<'a>(alloc: Global, words: &'a SubcommandWords) -> Result<Command<'a>, AllocError>
    ensures { IsBuilt (app_of_words words.entry.now) result }
{
    let mut command = Command::new(alloc, words.name)
        .about(words.about)
        .after_help(words.after_help);
    'options: for option in words.options {
        match command.arg(option_argument(alloc, option)) {
            Ok(more) => command = more,
            Err(error) => return Err(error),
        }
    }
    command.arg(file_argument(alloc, words.requires_files))
}

/// Adds a subcommand to a command, for which there may have been no memory.
fn add_subcommand<'a>(
    alloc: Global,
    command: Result<Command<'a>, AllocError>,
    words: &'a SubcommandWords,
) -> Result<Command<'a>, AllocError>
    ensures { AddsSubcommand command.entry words.entry.now result }
{
    match command {
        Ok(command) => match subcommand(alloc, words) {
            Ok(added) => command.subcommand(added),
            Err(error) => Err(error),
        },
        Err(error) => Err(error),
    }
}

/// The program's command line.
pub(crate) fn program<'a>(alloc: Global) -> Result<Command<'a>, AllocError>
    ensures { IfOk result (λ command. app_of command ≡ program_app) }
{
    let command = Command::new(alloc, "binlogfeed")
        .about(ABOUT)
        .after_help(STATUSES);
    let command = add_subcommand(alloc, Ok(command), &TRANSACTIONS);
    let command = add_subcommand(alloc, command, &READ);
    add_subcommand(alloc, command, &HISTORY)
}
