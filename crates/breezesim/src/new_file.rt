//! A file on its way to its name.

use crate::files::folder_of;
use bz_explore::NoFile;
use std::fs;
use std::fs::{File, Permissions};
use std::io::{ErrorKind, Write};

/// How many files may be on their way in a folder, with those that ended calls have left there.
const MOST: u32 = 1000;

/// A file in the folder of the name that it gets once it is whole. One that is let go before is removed.
pub(crate) struct NewFile<'r> {
    rt: &'r HostRuntime,
    file: File,
    path: String,
}

impl Drop for NewFile<'_> {
    fn drop(self) {
        let NewFile { rt, file: _, path } = self;
        let _ = fs::remove_file(rt, path.as_str());
    }
}

impl<'r> NewFile<'r> {
    /// Begins one beside a path.
    pub(crate) fn beside(rt: &'r HostRuntime, path: &str) -> Result<NewFile<'r>, NoFile> {
        for number in 1..MOST {
            match NewFile::numbered(rt, folder_of(path), number) {
                Err(NoFile::Exists) => {}
                begun => return begun,
            }
        }
        Err(NoFile::Unwritable)
    }

    fn numbered(rt: &'r HostRuntime, folder: &str, number: u32) -> Result<NewFile<'r>, NoFile> {
        let Ok(path) = format!(in rt.alloc(); "{folder}.breezesim.{number}.new") else {
            return Err(NoFile::Memory);
        };
        match File::create_new(rt, path.as_str()) {
            Ok(file) => Ok(NewFile { rt, file, path }),
            Err(error) => Err(cause_of(error.kind())),
        }
    }

    /// Gives it these rights.
    pub(crate) fn permit(&mut self, permissions: Permissions) -> Result<(), NoFile> {
        match self.file.set_permissions(permissions) {
            Ok(()) => Ok(()),
            Err(_) => Err(NoFile::Unwritable),
        }
    }

    /// Writes all that it is to have, down to the disk.
    pub(crate) fn fill(&mut self, bytes: &[u8]) -> Result<(), NoFile> {
        if self.file.write_all(bytes).is_ok() && self.file.sync_all().is_ok() {
            Ok(())
        } else {
            Err(NoFile::Unwritable)
        }
    }

    /// Gives it a name that nothing has.
    pub(crate) fn finish(self, path: &str) -> Result<(), NoFile> {
        match fs::hard_link(self.rt, self.path.as_str(), path) {
            Ok(()) => Ok(()),
            Err(error) if error.kind() == ErrorKind::AlreadyExists => Err(NoFile::Exists),
            Err(_) => self.finish_unlinked(path),
        }
    }

    // The same where there are no links: the name is taken by an empty file first.
    fn finish_unlinked(self, path: &str) -> Result<(), NoFile> {
        let rt = self.rt;
        match File::create_new(rt, path) {
            Ok(_) => {
                let finished = self.finish_over(path);
                if finished.is_err() {
                    let _ = fs::remove_file(rt, path);
                }
                finished
            }
            Err(error) => Err(cause_of(error.kind())),
        }
    }

    /// Puts it in place of the file of this name.
    pub(crate) fn finish_over(self, path: &str) -> Result<(), NoFile> {
        let NewFile {
            rt,
            file: _,
            path: beside,
        } = self;
        if fs::rename(rt, beside.as_str(), path).is_ok() {
            return Ok(());
        }
        let _ = fs::remove_file(rt, beside.as_str());
        Err(NoFile::Unwritable)
    }
}

// Why there is no new file.
fn cause_of(kind: ErrorKind) -> NoFile {
    match kind {
        ErrorKind::AlreadyExists => NoFile::Exists,
        _ => NoFile::Unwritable,
    }
}
