//! What a command is given beside its input.
//!
//! Words that a file has are read before the netlist, and so is the name of the part: what is wrong with them is known first.

use crate::asked::{Command, Source};
use crate::files::{Cause, bytes_of_file, open_file, text_of};
use crate::refusal::Refusal;
use crate::request::{PartName, Request};
use crate::words::{split_names, split_words};
use bz_cli_trace::split_trace;
use bz_source::SourceFile;
use std::alloc::{AllocError, Global};
use std::io::Input;
use std::rt::Files;

/// The most bytes that files of the source may have together.
const MOST_SOURCE: usize = 4_194_304;

/// What a command is given beside its input.
#[derive(Clone, Copy)]
pub struct Given<'a, 't> {
    pub command: Command<'a>,
    /// The name of the part to open. Where none is given, that is the one part that no other part uses.
    pub part: Option<&'a [u8]>,
    /// The words; of `test` the benches, and of `check` the names of several traces.
    pub words: &'a [&'t str],
    /// The files of the source that are shown.
    pub sources: &'a [SourceFile],
    /// The text in which the words stand, if that is a file's.
    pub word_text: Option<&'a str>,
    /// The name of the netlist's file, if it is one's.
    pub file: Option<&'a str>,
    /// Whether notes are asked for.
    pub explains: bool,
    /// Whether lines are typed at a prompt.
    pub prompts: bool,
}

/// The text of the words, if that is a file's, that of the names of traces, the name of the part, if one is named, and the files of
/// the source.
#[derive(Drop)]
pub struct Texts {
    words: Option<String>,
    /// The names of traces, where a file has them.
    traces: Option<String>,
    part: Option<Vec<u8>>,
    sources: Vec<SourceFile>,
}

impl Texts {
    /// Those of a request. Words may come from standard input.
    pub fn of<'a, F: Files + Input>(
        rt: &F,
        alloc: Global,
        request: &Request<'a>,
    ) -> Result<Texts, Refusal<'a>> {
        let words = match request.command.word_file() {
            Some(source) => Some(words_in(rt, alloc, source)?),
            None => None,
        };
        let traces = match request.command.trace_names() {
            Some(source) => Some(words_in(rt, alloc, source)?),
            None => None,
        };
        let part = part_named(alloc, request.part)?;
        let sources = sources_in(rt, alloc, request.sources.as_slice())?;
        Ok(Texts {
            words,
            traces,
            part,
            sources,
        })
    }

    /// The words of the text, or else those of the command line; the names of several traces likewise.
    pub fn words<'t>(
        &'t self,
        alloc: Global,
        request: &'t Request<'_>,
    ) -> Result<Vec<&'t str>, AllocError> {
        match (&self.words, &self.traces) {
            (Some(text), _) => split_words(alloc, text.as_str()),
            (None, Some(text)) => split_names(alloc, text.as_str()),
            (None, None) if request.command.is_of_several() => {
                Vec::from_slice(alloc, request.traces.as_slice())
            }
            (None, None) => Vec::from_slice(alloc, request.words.as_slice()),
        }
    }

    /// What the command of a request is given, with these words.
    pub fn given<'t>(
        &'t self,
        request: &'t Request<'_>,
        words: &'t [&'t str],
        prompts: bool,
    ) -> Given<'t, 't> {
        Given {
            command: request.command,
            part: match &self.part {
                Some(name) => Some(name.as_slice()),
                None => None,
            },
            words,
            sources: self.sources.as_slice(),
            word_text: match &self.words {
                Some(text) => Some(text.as_str()),
                None => None,
            },
            file: request.netlist.file(),
            explains: request.explains,
            prompts,
        }
    }
}

// The text of words or names that a file has, or standard input.
fn words_in<'a, F: Files + Input>(
    rt: &F,
    alloc: Global,
    source: Source<'a>,
) -> Result<String, Refusal<'a>> {
    let text = match source {
        Source::Stdin => text_of(alloc, rt.reader()),
        Source::File(path) => match open_file(rt, path) {
            Ok(file) => text_of(alloc, file),
            Err(cause) => Err(cause),
        },
    };
    match text {
        Ok(text) => Ok(text),
        Err(cause) => Err(unread(source, cause)),
    }
}

// Why a text can't be had.
fn unread<'a>(source: Source<'a>, cause: Cause) -> Refusal<'a> {
    match (source, cause) {
        (Source::Stdin, Cause::System(_)) => Refusal::Read,
        (Source::Stdin, cause) => Refusal::File("-", cause),
        (Source::File(path), cause) => Refusal::File(path, cause),
    }
}

// The files of the source of these names.
fn sources_in<'a, F: Files>(
    files: &F,
    alloc: Global,
    names: &[&'a str],
) -> Result<Vec<SourceFile>, Refusal<'a>> {
    let mut sources = Vec::new(alloc);
    for name in names {
        push_source(&mut sources, source_of(files, alloc, *name))?;
    }
    Ok(sources)
}

// Adds one, where it could be read and all are not too large.
fn push_source<'a>(
    sources: &mut Vec<SourceFile>,
    source: Result<SourceFile, Refusal<'a>>,
) -> Result<(), Refusal<'a>> {
    if sources.push(source?).is_err() {
        return Err(Refusal::Memory);
    }
    if size_of(sources.as_slice()) > MOST_SOURCE {
        return Err(Refusal::Line("the files of --source have more than 4194304 bytes together"));
    }
    Ok(())
}

fn source_of<'a, F: Files>(
    files: &F,
    alloc: Global,
    path: &'a str,
) -> Result<SourceFile, Refusal<'a>> {
    let text = match bytes_of_file(files, alloc, path) {
        Ok(text) => text,
        Err(cause) => return Err(Refusal::File(path, cause)),
    };
    match Vec::from_slice(alloc, path.as_bytes()) {
        Ok(name) => Ok(SourceFile { name, text }),
        Err(_) => Err(Refusal::Memory),
    }
}

// How many bytes files have together.
fn size_of(sources: &[SourceFile]) -> usize {
    let mut size = 0usize;
    for source in sources {
        size = size.saturating_add(source.text.len());
    }
    size
}

// The name of the part to open, if one is named.
fn part_named<'a>(alloc: Global, part: PartName<'_>) -> Result<Option<Vec<u8>>, Refusal<'a>> {
    let name = match part {
        PartName::Form(form) => bz_words::read_name(alloc, form.as_bytes()),
        PartName::Text(name) => Vec::from_slice(alloc, name.as_bytes()).map(Some),
        PartName::Top => return Ok(None),
    };
    match name {
        Ok(Some(name)) => Ok(Some(name)),
        Ok(None) => Err(Refusal::Line("the value of --part-form is not a name form")),
        Err(_) => Err(Refusal::Memory),
    }
}

/// The netlist of a command's input: what stands in front of the trace where the command reads one there.
pub fn netlist_in<'t>(command: Command<'_>, input: &'t [u8]) -> &'t [u8] {
    if command.reads_trace() && command.trace_file().is_none() && !command.is_of_several() {
        split_trace(input).0
    } else {
        input
    }
}
