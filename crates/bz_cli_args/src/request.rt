//! What the command line asks for.
//!
//! `-` is standard input only as the value of an option that takes a file. Standard input has one text: where two are asked
//! of it, or the netlist and the lines of `explore`, the command line is bad. A file that can't be opened, a folder too, is a
//! mistake of the command line, and so is whatever is wrong with a file of words, since that is known before the netlist is
//! read. What fails while a netlist is read is F1, as it would be on standard input.

use crate::asked::{Command, Source, command_in, source_named};
use crate::commands::command_line;
use crate::statuses::BAD_COMMAND_LINE;
use bz_text::{Piece, Text, put_pieces};
use clap::ArgMatches;
pub use clap::Error;
use clap::error::ErrorKind;
use std::alloc::{AllocError, Global};
use std::io::Write;

/// The most files of the source that are shown.
const MOST_SOURCES: usize = 100;

/// How a part is named.
#[derive(Clone, Copy)]
pub enum PartName<'a> {
    /// By its name.
    Text(&'a str),
    /// By its name in name form, or what stands in its place.
    Form(&'a str),
    /// Not at all: it is the one that no other part uses.
    Top,
}

/// What the command line asks for.
#[derive(Drop)]
pub struct Request<'a> {
    pub command: Command<'a>,
    pub part: PartName<'a>,
    pub netlist: Source<'a>,
    /// Whether notes are asked for after a fault.
    pub explains: bool,
    /// The words that stand on the command line.
    pub words: Vec<&'a str>,
    /// The netlists that are looked at one after another, in place of `netlist`.
    pub files: Vec<&'a str>,
    /// The traces that are checked one after another, in place of one.
    pub traces: Vec<&'a str>,
    /// The files of the source that are shown.
    pub sources: Vec<&'a str>,
}

/// What the words of the command line ask for, the first of which is the program's name; `None` where they name no command. An
/// error is a mistake in them, or the help or the version in place of a command.
pub fn request_of<'a>(alloc: Global, words: &'a [String]) -> Result<Option<Request<'a>>, Error> {
    let matches = command_line(alloc)?.try_get_matches_from(words)?;
    Ok(request_in(alloc, &matches)?)
}

fn request_in<'a>(
    alloc: Global,
    matches: &ArgMatches<'a>,
) -> Result<Option<Request<'a>>, AllocError> {
    let Some((name, matches)) = matches.subcommand() else {
        return Ok(None);
    };
    let Some(command) = command_in(name, matches) else {
        return Ok(None);
    };
    let words = Vec::from_slice(alloc, matches.get_strs("words").unwrap_or(&[]))?;
    let files = Vec::from_slice(alloc, matches.get_strs("files").unwrap_or(&[]))?;
    let traces = Vec::from_slice(alloc, matches.get_strs("traces").unwrap_or(&[]))?;
    let sources = Vec::from_slice(alloc, matches.get_strs("sources").unwrap_or(&[]))?;
    Ok(Some(Request {
        command,
        part: part_in(matches),
        netlist: source_named(matches, "netlist").unwrap_or(Source::Stdin),
        explains: matches.get_flag("explain"),
        words,
        files,
        traces,
        sources,
    }))
}

fn part_in<'a>(matches: &ArgMatches<'a>) -> PartName<'a> {
    match (matches.get_str("part-form"), matches.get_str("part")) {
        (Some(form), _) => PartName::Form(form),
        (None, Some(name)) => PartName::Text(name),
        (None, None) => PartName::Top,
    }
}

/// What became of an error of `request_of`.
#[derive(Clone, Copy)]
pub enum Told {
    /// It was printed, and this is the status of the program.
    Status(u8),
    /// The help or the version could not be written.
    Unwritten,
    /// Memory was refused, and nothing was printed.
    Memory,
}

/// Tells an error of `request_of`: a mistake to `errors`, the help and the version on standard output.
pub fn tell_error<R: Print + Eprint, E: Write>(
    rt: &R,
    alloc: Global,
    error: &Error,
    errors: &mut E,
) -> Told {
    if let ErrorKind::OutOfMemory = error.kind() {
        return Told::Memory;
    }
    if error.use_stderr() {
        tell_mistake(alloc, error, errors)
    } else if error.print(rt).is_ok() {
        Told::Status(0)
    } else {
        Told::Unwritten
    }
}

// Tells a mistake. A word that it names may be the name of a file, so a control character is a question mark.
fn tell_mistake<E: Write>(alloc: Global, error: &Error, errors: &mut E) -> Told {
    let mut text = Text::new(alloc);
    let _ = write!(text, "{error}");
    let Ok(message) = text.whole() else {
        return Told::Memory;
    };
    let mut before: &[u8] = b"";
    for line in message.split(|byte| *byte == b'\n') {
        let _ = put_pieces(errors, &[Piece::Bytes(before), Piece::File(line)]);
        before = b"\n";
    }
    Told::Status(BAD_COMMAND_LINE)
}

/// The word that has no place on the command line, where that is the mistake.
pub fn stray_word(alloc: Global, error: &Error) -> Option<String> {
    let ErrorKind::UnknownArgument = error.kind() else {
        return None;
    };
    let message = format!(in alloc; "{error}").ok()?;
    let (_, behind) = message.as_str().split_once("unexpected argument '")?;
    let (word, _) = behind.split_once("' found")?;
    String::from_str(alloc, word).ok()
}

/// What is wrong with options that may each be given, if something is.
pub fn mistake_in(request: &Request<'_>) -> Option<&'static str> {
    if request.sources.len() > MOST_SOURCES {
        return Some("--source names more than 100 files");
    }
    match request.command {
        Command::Check(options) if options.first && options.trace.is_none() && !options.several => {
            Some(
                "--first takes a trace with a text of its own: --trace FILE, --trace -, or traces that are named",
            )
        }
        Command::Check(options) if options.joined && !options.several => {
            Some("--joined takes traces that are named, as words or in the file of --traces-from")
        }
        Command::Test(options) if options.traces == Some("") => {
            Some("--trace takes the name of a folder")
        }
        _ => None,
    }
}

/// What would have to be read from standard input twice, if there is such: the words, the lines or the trace beside the netlist.
pub fn shared_stdin(request: &Request<'_>) -> Option<&'static str> {
    if count_stdin(&request.files) > 1 || count_stdin(&request.traces) > 1 {
        return Some("next one");
    }
    let Source::Stdin = request.netlist else {
        return None;
    };
    if count_stdin(&request.traces) > 0 {
        return Some("trace");
    }
    if let Some(Source::Stdin) = request.command.trace_names() {
        return Some("names of the traces");
    }
    if request.command.is_by_hand() {
        return Some("lines");
    }
    match (request.command.word_file(), request.command.trace_file()) {
        (Some(Source::Stdin), _) => Some("words"),
        (_, Some(Source::Stdin)) => Some("trace"),
        _ => None,
    }
}

// How many of these files are standard input.
fn count_stdin(files: &[&str]) -> usize {
    files.iter().filter(|file| **file == "-").count()
}
