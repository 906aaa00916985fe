//! The files that benches name, and those that are written of them.

use std::alloc::Global;

/// Why a file can't be read, or is not written.
#[derive(Clone, Copy)]
pub enum FileFault {
    /// This is wrong with it.
    Cause(&'static str),
    Memory,
}

/// Why a file is not written where there is one.
pub const THERE: &str = "it exists, and nothing is written over it";

/// The files of a call.
pub trait BenchFiles {
    /// The bytes of a file, which may have as many as a netlist.
    fn read(&mut self, alloc: Global, path: &str) -> Result<Vec<u8>, FileFault>;

    /// Whether something has this name.
    fn is_there(&mut self, path: &str) -> bool;

    /// Makes a file of these bytes: all of them, or none. One that is there is left as it is.
    fn make(&mut self, path: &str, bytes: &[u8]) -> Result<(), FileFault>;

    /// Puts a file of these bytes in place of one that is there, as a whole; or leaves that as it is.
    fn replace(&mut self, path: &str, bytes: &[u8]) -> Result<(), FileFault>;
}
