//! Benches as their files have them, and why one is not played.

use crate::files::{BenchFiles, FileFault};
use bz_bench::{Bench, BenchFault, Cause, Spot, Texts, read_bench};
use bz_text::Text;
use bz_view::Piece;
use std::alloc::{AllocError, AllocFailed, Global};

/// Where a text begins.
const START: Spot = Spot { line: 1, column: 1 };

/// Why a bench is not played.
#[derive(Drop)]
pub(crate) enum Refusal {
    /// It is none, here.
    Bench(Spot, Cause),
    /// It can't be read, or has no net.
    NoNet(Vec<u8>),
    Memory,
}

impl From<AllocError> for Refusal {
    fn from(_e: AllocError) -> Refusal {
        Refusal::Memory
    }
}

impl<T: Drop> From<AllocFailed<T>> for Refusal {
    fn from(_e: AllocFailed<T>) -> Refusal {
        Refusal::Memory
    }
}

impl From<BenchFault> for Refusal {
    fn from(e: BenchFault) -> Refusal {
        match e {
            BenchFault::At(at, cause) => Refusal::Bench(at, cause),
            BenchFault::Memory => Refusal::Memory,
        }
    }
}

// The files of items that a bench names, by names from its own folder on.
#[derive(Drop)]
struct Beside<'f, F: BenchFiles> {
    alloc: Global,
    files: &'f mut F,
    bench: &'f str,
}

impl<F: BenchFiles> Texts for Beside<'_, F> {
    fn text(&mut self, path: &str) -> Option<String> {
        let Ok(path) = path_beside(self.alloc, self.bench, path) else {
            return None;
        };
        match self.files.read(self.alloc, path.as_str()) {
            Ok(bytes) => String::from_utf8(bytes).ok(),
            Err(_) => None,
        }
    }
}

/// The bench of a file.
pub(crate) fn bench_of<F: BenchFiles>(
    alloc: Global,
    path: &str,
    files: &mut F,
) -> Result<Bench, Refusal> {
    let bytes = match files.read(alloc, path) {
        Ok(bytes) => bytes,
        Err(why) => return Err(unread(alloc, path, why)),
    };
    match String::from_utf8(bytes) {
        Ok(text) => bench_in(alloc, path, text.as_str(), files),
        Err(_) => Err(Refusal::Bench(START, Cause::NotText)),
    }
}

/// The bench that a text spells.
pub(crate) fn bench_in<F: BenchFiles>(
    alloc: Global,
    path: &str,
    text: &str,
    files: &mut F,
) -> Result<Bench, Refusal> {
    let mut beside = Beside {
        alloc,
        files,
        bench: path,
    };
    match read_bench(alloc, text, &mut beside) {
        Ok(bench) => Ok(bench),
        Err(fault) => Err(Refusal::from(fault)),
    }
}

/// That a bench names no netlist, and none takes its place.
pub(crate) fn no_netlist() -> Refusal {
    Refusal::Bench(START, Cause::NoNetlist)
}

/// That a file can't be read.
pub(crate) fn unread(alloc: Global, path: &str, why: FileFault) -> Refusal {
    match why {
        FileFault::Cause(cause) => {
            let mut text = Text::new(alloc);
            let pieces = [Piece::File(path), Piece::Text(cause)];
            text.say("cannot read %: %", &pieces);
            said(alloc, &text)
        }
        FileFault::Memory => Refusal::Memory,
    }
}

/// A text, as the reason why there is no net.
pub(crate) fn said(alloc: Global, text: &Text) -> Refusal {
    match bytes_of(alloc, text) {
        Ok(bytes) => Refusal::NoNet(bytes),
        Err(_) => Refusal::Memory,
    }
}

/// What a text has.
pub(crate) fn bytes_of(alloc: Global, text: &Text) -> Result<Vec<u8>, AllocError> {
    Vec::from_slice(alloc, text.whole()?)
}

/// The path of a file by its name from a bench's folder on.
pub(crate) fn path_beside(alloc: Global, bench: &str, path: &str) -> Result<String, AllocError> {
    if path.starts_with('/') {
        return String::from_str(alloc, path);
    }
    match bench.rsplit_once('/') {
        Some((folder, _)) => joined(alloc, folder, path),
        None => String::from_str(alloc, path),
    }
}

/// A folder, a slash and a name in it.
pub(crate) fn joined(alloc: Global, folder: &str, name: &str) -> Result<String, AllocError> {
    let mut path = String::from_str(alloc, folder)?;
    path.push_str("/")?;
    path.push_str(name)?;
    Ok(path)
}
