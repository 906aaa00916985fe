//! From a request to a status: the files that it names, and the command on one netlist after another.

use crate::keeping::{cover, keep_told};
use crate::naming::Named;
use crate::performing::program;
use bz_cli_args::{
    BAD_COMMAND_LINE, Command, Given, Refusal, Request, Source, Texts, mistake_in, open_file,
    shared_stdin,
};
use bz_cli_bench::BenchFiles;
use bz_cli_commands::{Outcome, has_traces};
use bz_cli_input::Fault;
use bz_cli_notes::{end, put_checked, refuse, tell_unread};
use bz_cli_several::Exercised;
use bz_cli_trace::Case;
use bz_explain_notes::Keeping;
use bz_explore::Files as NewFiles;
use std::alloc::Global;
use std::io;
use std::io::{BufWriter, Input, Read, Write};
use std::rt::Files;
use std::sync::Wait;
use std::thread::Threads;

/// How many bytes of output are gathered before they go out.
const BUFFER_SIZE: usize = 65_536;

/// Does what is asked for, on the netlist of the file that is named, or of standard input; or on each of several. The status with
/// which the program ends.
pub fn play<
    R: Threads + Wait + Sync + Files + Input + Print + AllocGlobal,
    F: NewFiles + BenchFiles,
    E: Write,
>(rt: &R, files: &mut F, errors: &mut E, prompts: bool, request: &mut Request<'_>) -> u8 {
    if request.command.is_by_hand() && matches!(request.command.trace_file(), Some(Source::Stdin)) {
        let why = "standard input cannot have both the lines and the trace";
        return refuse(rt.alloc(), Refusal::Line(why), errors);
    }
    if let Some(why) = mistake_in(request) {
        return refuse(rt.alloc(), Refusal::Line(why), errors);
    }
    if let Some(other) = shared_stdin(request) {
        return refuse(rt.alloc(), Refusal::Shared(other), errors);
    }
    if request.files.is_empty() {
        play_source(rt, files, errors, prompts, request)
    } else {
        play_each(rt, files, errors, prompts, request)
    }
}

// The same on each of several netlists. The greatest status of them.
fn play_each<
    R: Threads + Wait + Sync + Files + Input + Print + AllocGlobal,
    F: NewFiles + BenchFiles,
    E: Write,
>(rt: &R, files: &mut F, errors: &mut E, prompts: bool, request: &mut Request<'_>) -> u8 {
    let mut worst = 0;
    for place in 0..request.files.len() {
        if let Some(file) = request.files.get(place).copied() {
            request.netlist = Source::named(file);
            worst = worst.max(play_source(rt, files, errors, prompts, request));
        }
    }
    worst
}

fn play_source<
    R: Threads + Wait + Sync + Files + Input + Print + AllocGlobal,
    F: NewFiles + BenchFiles,
    E: Write,
>(rt: &R, files: &mut F, errors: &mut E, prompts: bool, request: &Request<'_>) -> u8 {
    match request.netlist {
        Source::Stdin => play_on(rt, files, errors, prompts, request, rt.reader()),
        Source::File(path) => match open_file(rt, path) {
            Ok(file) => play_on(rt, files, errors, prompts, request, file),
            Err(cause) => {
                if request.command.answers_objects() {
                    tell_unread(rt.alloc(), path, cause, &mut io::writer(rt));
                }
                refuse(rt.alloc(), Refusal::File(path, cause), errors)
            }
        },
    }
}

// Does what is asked for on a netlist.
fn play_on<
    N: Read + Drop,
    R: Threads + Wait + Sync + Files + Input + Print + AllocGlobal,
    F: NewFiles + BenchFiles,
    E: Write,
>(rt: &R, files: &mut F, errors: &mut E, prompts: bool, request: &Request<'_>, input: N) -> u8 {
    let alloc = rt.alloc();
    let keeps = request.explains
        || request.command.cover_file().is_some()
        || request.command.answers_findings();
    let input = &mut Keeping::new(alloc, input, keeps);
    let texts = match Texts::of(rt, alloc, request) {
        Ok(texts) => texts,
        Err(why) => return refuse(rt.alloc(), why, errors),
    };
    let Ok(words) = texts.words(alloc, request) else {
        return refuse(rt.alloc(), Refusal::Memory, errors);
    };
    let given = texts.given(request, words.as_slice(), prompts);
    if let Command::Test(options) = given.command {
        match has_traces(alloc, &given, options, files, errors) {
            Ok(false) => {}
            Ok(true) => return BAD_COMMAND_LINE,
            Err(_) => return refuse(alloc, Refusal::Memory, errors),
        }
    }
    play_one(rt, files, errors, &given, input)
}

// The same of a command with one trace at most: that of the file that is named, or of standard input, or none of its own.
fn play_one<
    N: Read + Drop,
    R: Threads + Wait + Sync + Files + Input + Print + AllocGlobal,
    F: NewFiles + BenchFiles,
    E: Write,
>(rt: &R, files: &mut F, errors: &mut E, given: &Given<'_, '_>, input: &mut Keeping<N>) -> u8 {
    let outcome = match given.command.trace_file() {
        None => perform(rt, given, input, None::<R::File>, files, errors),
        Some(Source::Stdin) => { perform(rt, given, input, Some(rt.reader()), files, errors) }
        Some(Source::File(path)) => match open_file(rt, path) {
            Ok(file) => perform(rt, given, input, Some(file), files, errors),
            Err(cause) => return refuse(rt.alloc(), Refusal::File(path, cause), errors),
        },
    };
    let (status, case, ended, _, _) = outcome.into_parts();
    let played = match &ended {
        Some(ended) if !ended.halted() => Some(ended.net()),
        _ => None,
    };
    let kept = kept_for_notes(&*input, given.explains);
    let alloc = rt.alloc();
    end(rt, alloc, given, kept, status, case, played, errors)
}

// Does what a command says, with a trace of its own where there is one.
fn perform<
    R: Threads + Wait + Sync + Files + Input + Print + AllocGlobal,
    N: Read + Drop,
    T: Read + Drop,
    F: NewFiles + BenchFiles,
    E: Write,
>(
    rt: &R,
    given: &Given<'_, '_>,
    input: &mut Keeping<N>,
    trace: Option<T>,
    files: &mut F,
    errors: &mut E,
) -> Outcome {
    let alloc = rt.alloc();
    let Ok(output) = BufWriter::with_capacity(alloc, BUFFER_SIZE, io::writer(rt)) else {
        return Outcome::from(Fault::Memory);
    };
    let mut output = output;
    let mut trace = trace;
    let outcome = program(
        rt,
        alloc,
        given,
        input,
        trace.as_mut(),
        &Named { rt },
        &mut rt.reader(),
        files,
        &mut output,
        errors,
    );
    let (status, mut case, ended, coverage, covered) = outcome.into_parts();
    let kept = input.kept();
    let status = tell_object(alloc, given, kept, status, &mut case, &mut output);
    let status = if given.command.is_of_several() {
        keep_told(given.command, status, covered, files, errors)
    } else {
        let net = match &ended {
            Some(ended) => Some(ended.net()),
            None => None,
        };
        let run = Exercised { coverage, net };
        cover(alloc, given, kept, status, &mut case, run, files, errors)
    };
    Outcome {
        status,
        case,
        ended,
        coverage: None,
        covered: None,
    }
}

// Writes what was found of a trace as an object, where that is asked for. `kept` is the input, where it was kept.
fn tell_object<W: Write>(
    alloc: Global,
    given: &Given<'_, '_>,
    kept: Option<&[u8]>,
    status: Result<u8, Fault>,
    case: &mut Option<Case>,
    output: &mut W,
) -> Result<u8, Fault> {
    if !given.command.answers_findings() {
        return status;
    }
    match (status, case.take()) {
        (Ok(status), Some(case)) => match put_checked(alloc, given, kept, case, output) {
            Ok(()) => Ok(status),
            Err(fault) => Err(fault),
        },
        (status, _) => status,
    }
}

// What was kept of an input for notes, and not for another use.
fn kept_for_notes<N: Read + Drop>(input: &Keeping<N>, explains: bool) -> Option<&[u8]> {
    if explains { input.kept() } else { None }
}
