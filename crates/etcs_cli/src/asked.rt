//! What a command line asks for.

ghost use Rattle.std.specs.Prelude.{◌≡◌, IfSome};
ghost use Rattle.etcs_stream.specs.declared.job.Job.{Job};
ghost use Rattle.etcs_stream.specs.Printers.{IsGroupable};

use crate::line::line;
use crate::texts::Text;
use clap::error::ErrorKind;
use clap::{ArgMatches, Error};
use etcs_explain::{Layout, Task};
use etcs_log::{Good, Kinds, LogJob, NumberSet};
use etcs_stream::{Command, Form, Job, Kind};
use std::alloc::{AllocError, Global};

/// All kinds.
const EACH_KIND: Kinds = Kinds {
    long: true,
    short: true,
    radio: true,
    train: true,
};

/// What a command line asks for.
#[derive(Drop)]
pub(crate) enum Parsed<'a> {
    /// A run.
    Job(Job),
    /// A log, with its files.
    Log(LogJob, Vec<&'a str>),
    /// A run that explains items, with its files.
    Explain(Task, Vec<&'a str>),
    /// An item to begin with, with its numbers.
    Blank(Kind, Vec<u8>),
    /// A text that is printed as it is.
    Text(Text),
    /// Help or the version, with its text.
    Help(String),
    /// Nothing that can be done, with the text of a usage error.
    Wrong(String),
    /// Memory ran out while the words were read or the text was made.
    Memory,
}

/// Reads a command line, whose first word is the program's name. A job that it returns is one that `run` takes: only
/// telegrams are grouped.
#[inline(never)]
pub(crate) fn parse<'a>(alloc: Global, words: &'a [String]) -> Parsed<'a>
    ensures { (job : Job) → result ≡ Parsed.Job job → IsGroupable job }
{
    let Ok(line) = line(alloc) else {
        return Parsed::Memory;
    };
    match line.try_get_matches_from(words) {
        Ok(matches) => match asked(alloc, &matches) {
            Some(parsed) => parsed,
            // unreachable: the values were checked against the same lists
            None => Parsed::Wrong(String::new(alloc)),
        },
        Err(error) => refused(alloc, error),
    }
}

/// The tip for a word too many, which most often is the name of a file.
static FILE_TIP: &str = "  tip: etcs reads standard input: put < before the name of a file";

/// The text of what clap returned in place of matches, with a tip for a word too many that is no option.
fn fault_text(alloc: Global, error: &Error) -> Result<String, AllocError> {
    let text = error.to_string(alloc)?;
    if error.kind() == ErrorKind::UnknownArgument {
        if let Some((head, rest)) = text.as_str().split_once("\n\n") {
            if rest.starts_with("Usage: ") && !head.starts_with("error: unexpected argument '-") {
                return format!(in alloc; "{head}\n\n{FILE_TIP}\n\n{rest}");
            }
        }
    }
    Ok(text)
}

/// What clap returned in place of matches.
fn refused<'a>(alloc: Global, error: Error) -> Parsed<'a>
    ensures { (job : Job) → result ≡ Parsed.Job job → ⊥ }
{
    if error.kind() == ErrorKind::OutOfMemory {
        return Parsed::Memory;
    }
    match fault_text(alloc, &error) {
        Ok(text) if error.use_stderr() => Parsed::Wrong(text),
        Ok(text) => Parsed::Help(text),
        Err(_) => Parsed::Memory,
    }
}

/// What the matches name.
fn asked<'a>(alloc: Global, matches: &ArgMatches<'a>) -> Option<Parsed<'a>>
    ensures { IfSome result (λ parsed. (job : Job) → parsed ≡ Parsed.Job job → IsGroupable job) }
{
    let (name, options) = matches.subcommand()?;
    match name {
        "log" => {
            let job = log_of(options)?;
            Some(match files_of(alloc, options) {
                Ok(files) => Parsed::Log(job, files),
                Err(AllocError) => Parsed::Memory,
            })
        }
        "explain" => {
            let task = task_of(options)?;
            Some(match files_of(alloc, options) {
                Ok(files) => Parsed::Explain(task, files),
                Err(AllocError) => Parsed::Memory,
            })
        }
        "blank" => blank_of(alloc, options),
        "schema" | "tables" | "completions" => Some(Parsed::Text(text_of(name, options)?)),
        _ => Some(Parsed::Job(job_of(name, options)?)),
    }
}

/// The item to begin with that the options name.
fn blank_of<'a>(alloc: Global, options: &ArgMatches<'a>) -> Option<Parsed<'a>>
    ensures { IfSome result (λ parsed. (job : Job) → parsed ≡ Parsed.Job job → ⊥) }
{
    let kind = kind_of(options.get_str("kind")?)?;
    let mut numbers = Vec::new(alloc);
    for word in options.get_strs("number").unwrap_or(&[]) {
        let number = word.parse::<u8>().ok()?;
        if numbers.push(number).is_err() {
            return Some(Parsed::Memory);
        }
    }
    Some(Parsed::Blank(kind, numbers))
}

/// The text that the words name.
fn text_of(name: &str, options: &ArgMatches) -> Option<Text> {
    match (name, options.get_str("shell")) {
        ("schema", _) => Some(Text::Schema),
        ("tables", _) => Some(Text::Tables),
        (_, Some("bash")) => Some(Text::Bash),
        (_, Some("zsh")) => Some(Text::Zsh),
        (_, Some("fish")) => Some(Text::Fish),
        _ => None,
    }
}

/// The names of files.
fn files_of<'a>(alloc: Global, options: &ArgMatches<'a>) -> Result<Vec<&'a str>, AllocError> {
    let mut files = Vec::new(alloc);
    for name in options.get_strs("file").unwrap_or(&[]) {
        files.push(*name)?;
    }
    Ok(files)
}

/// The log that the options name.
fn log_of(options: &ArgMatches) -> Option<LogJob> {
    Some(LogJob {
        kinds: kinds_of(options.get_strs("kind")?)?,
        good: good_of(options)?,
        summary: options.get_flag("summary"),
        groups: options.get_flag("groups"),
        strict: options.get_flag("strict"),
        quiet: options.get_flag("quiet"),
        packets: numbers_of(options, "packet")?,
        messages: numbers_of(options, "message")?,
    })
}

/// The numbers that an option has.
fn numbers_of(options: &ArgMatches, name: &str) -> Option<NumberSet> {
    let mut numbers = NumberSet::new();
    for word in options.get_strs(name).unwrap_or(&[]) {
        numbers = numbers.with(word.parse::<u8>().ok()?);
    }
    Some(numbers)
}

/// What the options ask of good lines.
fn good_of(options: &ArgMatches) -> Option<Good> {
    match options.get_str("to") {
        Some("hex") => Some(Good::Digits),
        Some("json") => Some(Good::Json),
        Some(_) => None,
        None if options.get_flag("good") => Some(Good::Digits),
        None => Some(Good::Left),
    }
}

/// The job that a subcommand names with its options. Messages aren't grouped.
fn job_of(name: &str, options: &ArgMatches) -> Option<Job>
    ensures { IfSome result (λ job. IsGroupable job) }
{
    let job = Job {
        kind: kind_of(options.get_str("kind")?)?,
        from: form_of(options.get_str("from")?)?,
        command: command_of(name, options)?,
    };
    if job.is_groupable() { Some(job) } else { None }
}

/// The run that explains items, as the options name it.
fn task_of(options: &ArgMatches) -> Option<Task> {
    let layout = match options.get_str("to")? {
        "html" => Layout::Html,
        _ => Layout::Text,
    };
    let kind = match options.get_str("kind")? {
        "auto" => None,
        name => Some(kind_of(name)?),
    };
    Some(Task {
        kind,
        from: form_of(options.get_str("from")?)?,
        layout,
    })
}

/// The subcommand of that name, with its options.
fn command_of(name: &str, options: &ArgMatches) -> Option<Command> {
    match name {
        "show" => Some(Command::Show),
        "check" => Some(Command::Check),
        "group" => Some(Command::Group),
        "convert" => Some(Command::Convert(form_of(options.get_str("to")?)?)),
        _ => None,
    }
}

/// The kind of that name.
fn kind_of(name: &str) -> Option<Kind> {
    match name {
        "long" => Some(Kind::Long),
        "short" => Some(Kind::Short),
        "radio" => Some(Kind::Radio),
        "train" => Some(Kind::Train),
        _ => None,
    }
}

/// The kinds of these names.
fn kinds_of(names: &[&str]) -> Option<Kinds> {
    let mut kinds = Kinds {
        long: false,
        short: false,
        radio: false,
        train: false,
    };
    for name in names {
        kinds = match *name {
            "auto" => EACH_KIND,
            name => kinds.with(kind_of(name)?),
        };
    }
    Some(kinds)
}

/// The form of that name.
fn form_of(name: &str) -> Option<Form> {
    match name {
        "hex" => Some(Form::Hex),
        "bin" => Some(Form::Bin),
        "json" => Some(Form::Json),
        _ => None,
    }
}
