//! All command lines: subcommands, their options and their help.

use clap::builder::ValueParser;
use clap::{Arg, ArgAction, Command as Line};
use std::alloc::{AllocError, Global};

/// What `--kind` takes.
static KINDS: [&str; 4] = ["long", "short", "radio", "train"];

/// The help for them.
static KINDS_HELP: &str =
    "Balise telegrams of 830 user bits (long) or of 210 (short), or radio messages to the train (radio) or to the track (train)";

/// What it takes for `log` and `explain`.
static AUTO_KINDS: [&str; 5] = ["auto", "long", "short", "radio", "train"];

/// The help for them, of a log.
static LOG_KINDS_HELP: &str =
    "Balise telegrams of 830 user bits (long) or of 210 (short), radio messages to the train (radio) or to the track (train), or all of them (auto); repeated, or with commas, for several kinds";

/// The help for them, of what is explained.
static EXPLAIN_KINDS_HELP: &str =
    "Balise telegrams of 830 user bits (long) or of 210 (short), radio messages to the train (radio) or to the track (train), or of each item the kind that its first bytes suggest (auto)";

/// What it takes for the telegrams of a group.
static GROUP_KINDS: [&str; 2] = ["long", "short"];

/// The help for them.
static GROUP_KINDS_HELP: &str = "Balise telegrams of 830 user bits (long) or of 210 (short)";

/// What `--to` of `log` takes.
static LOG_FORMS: [&str; 2] = ["hex", "json"];

/// The help for it, and for the other options of `log`.
static LOG_TO_HELP: &str =
    "Write the good lines as digits (hex, the same as --good) or as one line of JSON each (json): the line's number, what is before its digits, and its item";

static GOOD_HELP: &str =
    "Write the digits of good lines, each after its kind if there are several kinds, and report bad lines and those of other kinds on standard error";

static PACKET_HELP: &str =
    "Write only the good lines whose item has one of these packets, by NID_PACKET; repeated, or with commas, for several";

static MESSAGE_HELP: &str =
    "Write only the good lines whose item is one of these messages, by NID_MESSAGE; with --packet those of either";

static SUMMARY_HELP: &str =
    "Count items, bad lines, lines of other kinds, lines of text, messages kept as bits, packets and messages by number, and refusals by variable and cause";

static LOG_GROUPS_HELP: &str =
    "Write at the end one line for each balise group, in the order in which they began: complete, which N_PIG are missing, or empty; and how many telegrams clash";

static STRICT_HELP: &str = "Report lines of text as bad";

static QUIET_HELP: &str = "Don't report single lines";

/// The help for the files of `log` and `explain`.
static FILE_HELP: &str =
    "The files to read, one after another; - is standard input, which is read if there are none";

/// The help for the numbers of `blank`.
static NUMBER_HELP: &str =
    "NID_PACKET of each packet; for messages (radio, train) NID_MESSAGE before them";

/// The shells that `completions` knows, and the help for them.
static SHELLS: [&str; 3] = ["bash", "zsh", "fish"];

static SHELL_HELP: &str = "The shell";

/// What `--from` and `--to` take.
static FORMS: [&str; 3] = ["hex", "bin", "json"];

/// The help for them.
static FROM_HELP: &str =
    "Form of the input: lines of hexadecimal digits (hex), the bytes themselves (bin) or lines of JSON (json)";

static TO_HELP: &str =
    "Form of the output: one line of hexadecimal digits per item (hex), the bytes themselves (bin) or one line of JSON per item (json)";

/// What `--to` of `explain` takes.
static LAYOUTS: [&str; 2] = ["text", "html"];

/// The help for it.
static LAYOUTS_HELP: &str =
    "Form of the output: lines of text (text) or a page for a browser (html)";

/// What `--version` writes after the name: the version, and the line of the kit that proves it.
static VERSION: &str = "0.2.0 (rattle-kit-13f logic dac8208d650f15bf)";

/// The help after a subcommand's options: what is read, what an item is, where the run ends, what the statuses mean, and an
/// example.
macro_rules! after_help {
    (run, $example:literal) => {
        after_help!(
            items,
            "Reads standard input.",
            "The run ends at the first item that is refused; what was accepted before it is written.",
            "an item refused or cut short",
            $example
        )
    };
    (items, $reads:literal, $run:literal, $refused:literal, $example:literal) => {
        after_help!(
            $reads,
            "An item is a telegram or message of the kind: hexadecimal digits on one or more lines,\nthe bytes themselves with nothing between two items, or a line of JSON.",
            $run,
            $refused,
            $example
        )
    };
    ($reads:literal, $item:literal, $run:literal, $refused:literal, $example:literal) => {
        concat!(
            $reads,
            " ",
            $item,
            "\n",
            $run,
            "\n\nStatus: 0 all accepted; 1 ",
            $refused,
            "; 2 usage error;\n3 a stream failed, out of memory, or more input than the limit.\n\nExample: etcs ",
            $example
        )
    };
}

/// The help after the options of a subcommand that writes a text.
macro_rules! text_help {
    ($example:literal) => {
        concat!(
            "Status: 0 written; 2 usage error; 3 a stream failed.\n\nExample: etcs ",
            $example
        )
    };
}

/// A subcommand: its name, what it does, and the help after its options.
struct Words {
    name: &'static str,
    about: &'static str,
    after: &'static str,
}

/// The subcommands, in the order of help.
static SUBCOMMANDS: [Words; 10] = [
    Words {
        name: "show",
        about: "Show the variables of each telegram or message, one per line",
        after: after_help!(run, "show --kind long < telegrams.hex"),
    },
    Words {
        name: "check",
        about: "Check each telegram or message, and write one line with its number of bits",
        after: after_help!(run, "check --kind radio --from bin < messages.bin"),
    },
    Words {
        name: "convert",
        about: "Write each telegram or message in another form",
        after: after_help!(run, "convert --kind short --to json < telegrams.hex"),
    },
    Words {
        name: "group",
        about: "Put the telegrams of a balise group together, in any order, and show its message",
        after: after_help!(
            items,
            "Reads standard input.",
            "The run ends at the first telegram that is refused. One that doesn't fit those before it is a clash and is left out.",
            "a telegram refused or cut short, a clash, or telegrams missing",
            "group --kind short --from json < group.json"
        ),
    },
    Words {
        name: "log",
        about: "Read a log with one item per line, and report why each bad line is bad",
        after: after_help!(
            "Reads the files or standard input.",
            "An item is the hexadecimal digits of a line, with nothing between them or in groups\nof one size, separated by blanks, tabs, 0x or other characters than letters. Text before and after them is ignored, and so\nare blank lines and lines that begin with #. A line of another kind isn't bad, nor, without --strict, is one of text.",
            "The run continues after a bad line, to the end of the input.",
            "a line is bad",
            "log --to json balises.log"
        ),
    },
    Words {
        name: "explain",
        about: "Explain each telegram or message: the bits, the number and the meaning of each variable, and why it is refused",
        after: after_help!(
            items,
            "Reads the files or standard input.",
            "Text before and after the digits of a line is ignored. After an item that is refused the run continues with\nthe next line; in an input of bytes (bin) it ends there.",
            "an item refused or cut short",
            "explain telegrams.hex"
        ),
    },
    Words {
        name: "blank",
        about: "Write a telegram or message to begin with, as a line of JSON",
        after: "The numbers are those of its packets, in order; for a message its own is the first one. Each variable has the least\nnumber that it admits, except that Q_SCALE and Q_DIR have 1. Lists have no entries, FILL is ones, PADDING zeros.\nPackets and messages whose variables etcs doesn't know have none.\n\nStatus: 0 written; 1 there is no such item; 2 usage error;\n3 a stream failed or out of memory.\n\nExample: etcs blank --kind short 12 137",
    },
    Words {
        name: "schema",
        about: "Write the JSON Schema of the items that convert writes and reads",
        after: text_help!("schema > etcs.schema.json"),
    },
    Words {
        name: "tables",
        about: "Write the tables of variables, packets and messages as JSON",
        after: text_help!("tables > etcs.tables.json"),
    },
    Words {
        name: "completions",
        about: "Write the completion of command lines for a shell",
        after: text_help!("completions bash > /etc/bash_completion.d/etcs"),
    },
];

/// All command lines. Their texts call the program `etcs`, whatever its file is named.
pub(crate) fn line<'a>(alloc: Global) -> Result<Line<'a>, AllocError> {
    let mut line = Line::new(alloc, "etcs")
        .bin_name("etcs")?
        .version(VERSION)
        .about(
            "Show, check, convert, group and explain ETCS balise telegrams (user bits) and radio messages from standard input, and read logs of them",
        )
        .subcommand_required(true);
    for words in &SUBCOMMANDS {
        line = line.subcommand(subcommand(alloc, words)?)?;
    }
    Ok(line)
}

/// A subcommand with its options.
fn subcommand<'a>(alloc: Global, words: &Words) -> Result<Line<'a>, AllocError> {
    let line = Line::new(alloc, words.name)
        .about(words.about)
        .after_help(words.after);
    match words.name {
        "schema" | "tables" => Ok(line),
        "completions" => line.arg(shell_argument(alloc)),
        _ => item_options(alloc, words.name, line.arg(kind_option(alloc, words.name))?),
    }
}

/// The options besides `--kind` of a subcommand that is about items.
fn item_options<'a>(alloc: Global, name: &str, line: Line<'a>) -> Result<Line<'a>, AllocError> {
    match name {
        "log" => log_options(alloc, line),
        "convert" => line.arg(from_option(alloc))?.arg(to_option(alloc)),
        "explain" => line
            .arg(from_option(alloc))?
            .arg(layout_option(alloc))?
            .arg(file_argument(alloc)),
        "blank" => line.arg(number_argument(alloc)),
        _ => line.arg(from_option(alloc)),
    }
}

/// The options of `log` but for its kinds, and its files.
fn log_options<'a>(alloc: Global, line: Line<'a>) -> Result<Line<'a>, AllocError> {
    line.arg(flag(alloc, "good", GOOD_HELP))?
        .arg(log_to_option(alloc)?)?
        .arg(numbers(alloc, "packet", PACKET_HELP))?
        .arg(numbers(alloc, "message", MESSAGE_HELP))?
        .arg(flag(alloc, "summary", SUMMARY_HELP))?
        .arg(flag(alloc, "groups", LOG_GROUPS_HELP))?
        .arg(flag(alloc, "strict", STRICT_HELP))?
        .arg(flag(alloc, "quiet", QUIET_HELP))?
        .arg(file_argument(alloc))
}

/// The names of files.
fn file_argument<'a>(alloc: Global) -> Arg<'a> {
    Arg::new(alloc, "file")
        .value_name("FILE")
        .action(ArgAction::Append)
        .help(FILE_HELP)
}

/// The numbers of packets, and of a message.
fn number_argument<'a>(alloc: Global) -> Arg<'a> {
    Arg::new(alloc, "number")
        .value_name("NUMBER")
        .value_parser(ValueParser::unsigned(0, 255))
        .action(ArgAction::Append)
        .help(NUMBER_HELP)
}

/// The shell of a completion.
fn shell_argument<'a>(alloc: Global) -> Arg<'a> {
    Arg::new(alloc, "shell")
        .value_name("SHELL")
        .value_parser(ValueParser::from(SHELLS.as_slice()))
        .required(true)
        .help(SHELL_HELP)
}

/// An option whose values are numbers of packets or messages.
fn numbers<'a>(alloc: Global, name: &'static str, help: &'static str) -> Arg<'a> {
    Arg::new(alloc, name)
        .long(name)
        .value_name("N")
        .value_parser(ValueParser::unsigned(0, 255))
        .action(ArgAction::Append)
        .value_delimiter(',')
        .help(help)
}

/// An option without a value.
fn flag<'a>(alloc: Global, name: &'static str, help: &'static str) -> Arg<'a> {
    Arg::new(alloc, name)
        .long(name)
        .action(ArgAction::SetTrue)
        .help(help)
}

/// An option whose value is one of a few words.
fn choice<'a>(
    alloc: Global,
    name: &'static str,
    value: &'static str,
    words: &'static [&'static str],
    help: &'static str,
) -> Arg<'a> {
    Arg::new(alloc, name)
        .long(name)
        .value_name(value)
        .value_parser(ValueParser::from(words))
        .help(help)
}

/// `--kind` of a subcommand. Only those of `log` and `explain` have a default.
fn kind_option<'a>(alloc: Global, subcommand: &str) -> Arg<'a> {
    match subcommand {
        "log" => choice(alloc, "kind", "KIND", &AUTO_KINDS, LOG_KINDS_HELP)
            .short('k')
            .action(ArgAction::Append)
            .value_delimiter(',')
            .default_value("auto"),
        "explain" => choice(alloc, "kind", "KIND", &AUTO_KINDS, EXPLAIN_KINDS_HELP)
            .short('k')
            .default_value("auto"),
        "blank" => choice(alloc, "kind", "KIND", &KINDS, KINDS_HELP)
            .short('k')
            .required(true),
        "group" => choice(alloc, "kind", "KIND", &GROUP_KINDS, GROUP_KINDS_HELP).required(true),
        _ => choice(alloc, "kind", "KIND", &KINDS, KINDS_HELP).required(true),
    }
}

/// `--from`, whose default is hex.
fn from_option<'a>(alloc: Global) -> Arg<'a> {
    choice(alloc, "from", "FORM", &FORMS, FROM_HELP).default_value("hex")
}

/// `--to`, which has no default.
fn to_option<'a>(alloc: Global) -> Arg<'a> {
    choice(alloc, "to", "FORM", &FORMS, TO_HELP).required(true)
}

/// `--to` of `log`, which has no default.
fn log_to_option<'a>(alloc: Global) -> Result<Arg<'a>, AllocError> {
    choice(alloc, "to", "FORM", &LOG_FORMS, LOG_TO_HELP).conflicts_with("good")
}

/// `--to` of `explain`, whose default is text.
fn layout_option<'a>(alloc: Global) -> Arg<'a> {
    choice(alloc, "to", "FORM", &LAYOUTS, LAYOUTS_HELP).default_value("text")
}
