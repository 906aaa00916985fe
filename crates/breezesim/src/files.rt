//! The files that are written.
//!
//! One is written beside its target and gets that name once it is whole: by a link, which replaces nothing, or in place of the
//! one that was there. Where something fails the target is as it was. What is no file of a folder, as a device or a pipe, is
//! written as it is.

use crate::new_file::NewFile;
use bz_cli_args::{Cause, bytes_of_file};
use bz_cli_bench::{BenchFiles, FileFault, THERE};
use bz_explore::{Files, NoFile};
use std::alloc::Global;
use std::fs;
use std::fs::{File, Metadata, OpenOptions, Permissions};
use std::io::{Read, Write};
use std::os::unix::fs::{FileTypeExt, MetadataExt};

/// How many bytes of a file are looked at before it is replaced.
const BEGINNING: usize = 32;

/// The files of the system. The netlist is never written.
#[derive(Clone, Copy)]
pub(crate) struct SystemFiles<'r, 'n> {
    pub rt: &'r HostRuntime,
    pub netlist: Option<&'n str>,
    /// Which of them lines may name.
    pub nameable: Nameable<'n>,
}

/// Which files lines may name.
#[derive(Clone, Copy)]
pub(crate) enum Nameable<'n> {
    /// Any: they are typed.
    Any,
    /// Traces, sessions and pages of the current folder or below.
    Own,
    /// Those below this folder.
    Below(&'n str),
    None,
}

impl Files for SystemFiles<'_, '_> {
    fn put(&mut self, path: &str, bytes: &[u8], over: Option<&[u8]>) -> Result<(), NoFile> {
        if !self.may_be_named(path) {
            return Err(NoFile::Barred);
        }
        match (fs::metadata(self.rt, path), over) {
            (Ok(data), Some(beginning)) if data.is_file() => self.replaced(path, bytes, beginning),
            (Ok(data), Some(_)) => self.filled(path, bytes, &data),
            _ => self.made(path, bytes),
        }
    }
}

impl BenchFiles for SystemFiles<'_, '_> {
    fn read(&mut self, alloc: Global, path: &str) -> Result<Vec<u8>, FileFault> {
        match bytes_of_file(self.rt, alloc, path) {
            Ok(bytes) => Ok(bytes),
            Err(Cause::Memory) => Err(FileFault::Memory),
            Err(cause) => Err(FileFault::Cause(cause.words())),
        }
    }

    fn is_there(&mut self, path: &str) -> bool {
        fs::symlink_metadata(self.rt, path).is_ok()
    }

    fn make(&mut self, path: &str, bytes: &[u8]) -> Result<(), FileFault> {
        told(self.made(path, bytes))
    }

    fn replace(&mut self, path: &str, bytes: &[u8]) -> Result<(), FileFault> {
        told(self.replaced(path, bytes, b""))
    }
}

// The same in words.
fn told(written: Result<(), NoFile>) -> Result<(), FileFault> {
    match written {
        Ok(()) => Ok(()),
        Err(NoFile::Memory) => Err(FileFault::Memory),
        Err(NoFile::Exists) => Err(FileFault::Cause(THERE)),
        Err(_) => Err(FileFault::Cause("it can't be written")),
    }
}

impl SystemFiles<'_, '_> {
    // Makes a file where nothing has its name.
    fn made(&self, path: &str, bytes: &[u8]) -> Result<(), NoFile> {
        if fs::symlink_metadata(self.rt, path).is_ok() {
            return Err(NoFile::Exists);
        }
        let mut file = NewFile::beside(self.rt, path)?;
        file.fill(bytes)?;
        file.finish(path)
    }

    // Puts a file in place of one that begins so. A link to a file stays one: what it leads to is replaced.
    fn replaced(&self, path: &str, bytes: &[u8], beginning: &[u8]) -> Result<(), NoFile> {
        let permissions = self.replaceable(path, beginning)?;
        if !self.is_link(path) {
            return self.put_over(path, bytes, permissions);
        }
        match fs::canonicalize(self.rt, path) {
            Ok(path) => self.put_over(path.as_str(), bytes, permissions),
            Err(_) => Err(NoFile::Unwritable),
        }
    }

    fn put_over(&self, path: &str, bytes: &[u8], permissions: Permissions) -> Result<(), NoFile> {
        let mut file = NewFile::beside(self.rt, path)?;
        file.permit(permissions)?;
        file.fill(bytes)?;
        file.finish_over(path)
    }

    // The rights of a file that may be replaced: it may be written, and begins so, or has nothing.
    fn replaceable(&self, path: &str, beginning: &[u8]) -> Result<Permissions, NoFile> {
        let opened = OpenOptions::new()
            .read(true)
            .write(true)
            .open(self.rt, path);
        let Ok(mut file) = opened else {
            return Err(NoFile::Unwritable);
        };
        match file.metadata() {
            Ok(data) if self.is_netlist(&data) => Err(NoFile::Netlist),
            Ok(data) if data.is_file() => {
                if begins_so(&mut file, beginning) {
                    Ok(data.permissions())
                } else {
                    Err(NoFile::Other)
                }
            }
            _ => Err(NoFile::Unwritable),
        }
    }

    // Writes to what is no file of a folder. A pipe that has a name there is left alone: to open one is to wait for who reads it.
    fn filled(&self, path: &str, bytes: &[u8], data: &Metadata) -> Result<(), NoFile> {
        if data.file_type().is_fifo() && fs::canonicalize(self.rt, path).is_ok() {
            return Err(NoFile::Unwritable);
        }
        let written = match OpenOptions::new().write(true).open(self.rt, path) {
            Ok(mut file) => file.write_all(bytes),
            Err(error) => Err(error),
        };
        match written {
            Ok(()) => Ok(()),
            Err(_) => Err(NoFile::Unwritable),
        }
    }

    // Whether a file is the netlist, by whatever name.
    fn is_netlist(&self, file: &Metadata) -> bool {
        let Some(path) = self.netlist else {
            return false;
        };
        match fs::metadata(self.rt, path) {
            Ok(netlist) => netlist.dev() == file.dev() && netlist.ino() == file.ino(),
            Err(_) => false,
        }
    }

    // Whether a line may name a file.
    fn may_be_named(&self, path: &str) -> bool {
        match self.nameable {
            Nameable::Any => true,
            Nameable::Own => is_kept_name(path) && self.is_plain(path),
            Nameable::Below(folder) => self.is_below(folder, path),
            Nameable::None => false,
        }
    }

    // Whether a path goes down from the current folder, and through no link.
    fn is_plain(&self, path: &str) -> bool {
        let mut upto = 0usize;
        for name in path.split('/') {
            upto = upto.saturating_add(name.len());
            let here = path.get(..upto).unwrap_or(path);
            if name.is_empty() || name == ".." || self.is_link(here) {
                return false;
            }
            upto = upto.saturating_add(1);
        }
        true
    }

    fn is_link(&self, path: &str) -> bool {
        match fs::symlink_metadata(self.rt, path) {
            Ok(data) => data.is_symlink(),
            Err(_) => false,
        }
    }

    // Whether a file is, or would be, below a folder, wherever links lead.
    fn is_below(&self, folder: &str, path: &str) -> bool {
        let place = match fs::canonicalize(self.rt, path) {
            Ok(place) => Ok(place),
            Err(_) => fs::canonicalize(self.rt, folder_of(path)),
        };
        match (fs::canonicalize(self.rt, folder), place) {
            (Ok(folder), Ok(place)) => place.as_path().starts_with(folder.as_str()),
            _ => false,
        }
    }
}

// Whether a file begins so, or has nothing.
fn begins_so(file: &mut File, beginning: &[u8]) -> bool {
    let mut had = [0u8; BEGINNING];
    match file.read(&mut had) {
        Ok(count) => { count == 0 || had.get(..count).unwrap_or(&[]).starts_with(beginning) }
        Err(_) => false,
    }
}

// Whether it is the name of a trace, a session or a page.
fn is_kept_name(path: &str) -> bool {
    path.ends_with(".trace") || path.ends_with(".session") || path.ends_with(".html")
}

/// The folder of a path, with a slash at its end.
pub(crate) fn folder_of(path: &str) -> &str {
    match path.rsplit_once('/') {
        Some((_, name)) => path.strip_suffix(name).unwrap_or(path),
        None => "./",
    }
}
