//! The traces of cases that failed.
//!
//! Such a file is called as the bench; where several benches of a call are called so, by the bench's path.

use crate::asked::{Seeds, Trial};
use crate::blessing::Blessing;
use crate::case::Case;
use crate::files::{BenchFiles, FileFault, THERE};
use crate::playing::Played;
use crate::reading::bytes_of;
use crate::setting::Setting;
use bz_cli_input::Fault;
use bz_net::Net;
use bz_text::{Piece as Part, Text};
use bz_trace_text::write_trace;
use bz_view::Piece;
use std::alloc::{AllocError, Global};
use std::io::Write;

/// Keeps the trace of a play, if that is asked for. Why it was not kept.
pub(crate) fn keep_trace<F: BenchFiles>(
    setting: Setting<'_>,
    seed: Option<u64>,
    played: &Played,
    files: &mut F,
) -> Result<Option<&'static str>, Fault> {
    let Trial {
        alloc,
        asked,
        names,
        ..
    } = setting.trial;
    let Some(folder) = asked.traces else {
        return Ok(None);
    };
    // (a bench that is named again is played as before)
    let before = asked.benches.get(..setting.at.place).unwrap_or(&[]);
    if before.contains(&setting.at.path) {
        return Ok(None);
    }
    let path = path_of(alloc, names, folder, setting.at.path, seed)?;
    match make(alloc, path.as_str(), played.stepping.net(), files) {
        Ok(()) => Ok(None),
        Err(FileFault::Cause(why)) => Ok(Some(why)),
        Err(FileFault::Memory) => Err(Fault::Memory),
    }
}

fn make<F: BenchFiles>(
    alloc: Global,
    path: &str,
    net: &Net,
    files: &mut F,
) -> Result<(), FileFault> {
    let mut text = Text::new(alloc);
    // (a text takes all that is written to it, and keeps that memory was refused)
    let _ = write_trace(net.names(), net.journal(), net.clashes(), &mut text);
    match text.whole() {
        Ok(bytes) => files.make(path, bytes),
        Err(_) => Err(FileFault::Memory),
    }
}

/// Tells the first file of a trace that may have to be kept and that is there already; whether there is one. The traces are those
/// of benches that are played by seeds.
pub fn is_trace_there<F: BenchFiles, E: Write>(
    alloc: Global,
    folder: &str,
    benches: &[&str],
    seeds: Seeds,
    files: &mut F,
    errors: &mut E,
) -> Result<bool, AllocError> {
    let names = names_of(alloc, benches)?;
    for bench in benches {
        for round in 0..=seeds.more() {
            let path = path_of(alloc, &names, folder, bench, seeds.at(round))?;
            if files.is_there(path.as_str()) {
                tell_line(alloc, "--trace:", path.as_str(), THERE, errors);
                return Ok(true);
            }
        }
    }
    Ok(false)
}

/// The names of benches, in their order.
pub(crate) fn names_of<'b>(alloc: Global, benches: &[&'b str]) -> Result<Vec<&'b str>, AllocError> {
    let mut names = Vec::new(alloc);
    for bench in benches {
        names.push(name_of(*bench))?;
    }
    names.sort()?;
    Ok(names)
}

/// The name of a bench: that of its file, without the ending.
pub(crate) fn name_of(path: &str) -> &str {
    let name = match path.rsplit_once('/') {
        Some((_, name)) => name,
        None => path,
    };
    match name.rsplit_once('.') {
        Some((stem, _)) if !stem.is_empty() => stem,
        _ => name,
    }
}

// Whether several of these, which are in order, are the same as this one.
fn is_shared(names: &[&str], name: &str) -> bool {
    let first = names.partition_point(|it| *it < name);
    match names.get(first.saturating_add(1)) {
        Some(next) => *next == name,
        None => false,
    }
}

// The path of the trace of a bench that is played by a seed. `names` are those of all benches, in their order.
fn path_of(
    alloc: Global,
    names: &[&str],
    folder: &str,
    bench: &str,
    seed: Option<u64>,
) -> Result<String, AllocError> {
    let mut path = Text::new(alloc);
    path.say("%/", &[Piece::Text(folder)]);
    let name = name_of(bench);
    if is_shared(names, name) {
        put_path(bench, &mut path);
    } else {
        path.put(name);
    }
    if let Some(seed) = seed {
        path.say(".%", &[Piece::Wide(seed.into())]);
    }
    path.put(".trace");
    match String::from_utf8(bytes_of(alloc, &path)?) {
        Ok(path) => Ok(path),
        // (it is put together of texts)
        Err(_) => Err(AllocError),
    }
}

// Adds a path as the name of one file: in name form, in which a `/` is `%2F`.
fn put_path(path: &str, text: &mut Text) {
    for (place, name) in path.split('/').enumerate() {
        if place > 0 {
            text.put("%2F");
        }
        if !name.is_empty() {
            text.put_pieces(&[Part::Name(name.as_bytes())]);
        }
    }
}

/// Tells which benches were not blessed and which traces not kept, and why.
pub(crate) fn tell_unkept<E: Write>(trial: Trial<'_>, cases: &[Case], errors: &mut E) {
    let Trial {
        alloc,
        asked,
        names,
        ..
    } = trial;
    for case in cases {
        let bench = asked.benches.get(case.bench()).copied().unwrap_or("");
        if let Blessing::Kept(why) | Blessing::Unwritten(why) = case.told().blessing {
            tell_line(alloc, "--bless:", bench, why, errors);
        }
        if let Some(why) = case.told().unkept {
            let folder = asked.traces.unwrap_or("");
            if let Ok(path) = path_of(alloc, names, folder, bench, case.seed()) {
                tell_line(alloc, "--trace:", path.as_str(), why, errors);
            }
        }
    }
}

/// Tells why a file was not written that an option asks for.
pub(crate) fn tell_line<E: Write>(
    alloc: Global,
    option: &str,
    path: &str,
    why: &str,
    errors: &mut E,
) {
    let mut text = Text::new(alloc);
    let pieces = [Piece::Text(option), Piece::File(path), Piece::Text(why)];
    text.say("error: % %: %\n", &pieces);
    if let Ok(line) = text.whole() {
        let _ = bz_text::put(errors, line);
    }
}
