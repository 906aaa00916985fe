//! The program `breezesim`.
#![tactic(auto)]

mod files;
mod new_file;

use crate::files::{Nameable, SystemFiles};
use bz_cli_args::{BAD_COMMAND_LINE, Command, Refusal, request_of, words_of};
use bz_cli_notes::{refuse, tell_no_request};
use bz_cli_program::play;
use std::fs;
use std::fs::File;
use std::io::IsTerminal;
use std::os::fd::AsFd;
use std::process::ExitCode;

fn main(rt: HostRuntime) -> ExitCode {
    let _held = hold_closed(&rt);
    let alloc = rt.alloc();
    let mut errors = rt.stderr();
    let words = match words_of(&rt) {
        Ok(words) => words,
        Err(fault) => return ExitCode::from(refuse(alloc, Refusal::from(fault), &mut errors)),
    };
    let mut request = match request_of(alloc, words.as_slice()) {
        Ok(Some(request)) => request,
        Ok(None) => return ExitCode::from(BAD_COMMAND_LINE),
        Err(error) => return ExitCode::from(tell_no_request(&rt, alloc, &error, &mut errors)),
    };
    let is_typed = rt.stdin().is_terminal();
    let mut files = SystemFiles {
        rt: &rt,
        netlist: request.netlist.file(),
        nameable: allowed(request.command, is_typed),
    };
    let prompts = is_typed && rt.stdout().is_terminal();
    ExitCode::from(play(&rt, &mut files, &mut errors, prompts, &mut request))
}

// A folder in place of each standard stream that is closed: it can neither be read nor be written. Else a file that is opened
// would take its place.
fn hold_closed(rt: &HostRuntime) -> [Option<File>; 3] {
    [
        held(rt, rt.stdin().as_fd().try_clone_to_owned().is_err()),
        held(rt, rt.stdout().as_fd().try_clone_to_owned().is_err()),
        held(rt, rt.stderr().as_fd().try_clone_to_owned().is_err()),
    ]
}

fn held(rt: &HostRuntime, is_closed: bool) -> Option<File> {
    if is_closed {
        fs::open(rt, "/").ok()
    } else {
        None
    }
}

// Which files the lines of a session may name.
fn allowed<'a>(command: Command<'a>, is_typed: bool) -> Nameable<'a> {
    match command.session_files() {
        Some("none") => Nameable::None,
        Some(folder) => Nameable::Below(folder),
        None if is_typed => Nameable::Any,
        None => Nameable::Own,
    }
}
