//! Which of the files that the places of a net name each file of a source is.
//!
//! A place names its file as the compiler was called, and the file is read from where it lies now: so the last part of a path
//! does where it leaves no doubt, and the whole name goes before it. The page's script goes by the same rule.

use crate::file::SourceFile;
use crate::labels::SourceAt;
use crate::survey::Survey;
use bz_text::{Piece, put_pieces};
use std::alloc::{AllocError, Global};
use std::io::Write;

/// Files of a source, each with the name that the places of a net have for it.
#[derive(Drop)]
pub struct Named<'s> {
    files: &'s [SourceFile],
    /// Of each file the name in the net, where a place names it.
    names: Vec<Option<&'s [u8]>>,
}

impl<'s> Named<'s> {
    /// These files, by the places of a net. A file is the one of its name; where no place has that, the one whose last part is
    /// that of its name, if no other file that is given and no other one that a place names has that last part.
    pub fn of(
        alloc: Global,
        files: &'s [SourceFile],
        survey: &'s Survey,
    ) -> Result<Named<'s>, AllocError> {
        let mut names = Vec::new(alloc);
        for file in files {
            let named = Naming::of(survey, file.name.as_slice());
            names.push(named.name(is_alone(files, file)))?;
        }
        Ok(Named { files, names })
    }

    /// The line of a source at which a place is, where its file is given and has such a line.
    pub fn line(&self, at: SourceAt<'_>) -> Option<&'s [u8]> {
        for (file, name) in self.files.iter().zip(&self.names) {
            if *name == Some(at.file) {
                return file.line(at.line);
            }
        }
        None
    }
}

/// Tells the files that no place of the net names. Where memory is refused nothing is told.
pub fn tell_unnamed<W: Write>(
    alloc: Global,
    files: &[SourceFile],
    survey: &Survey,
    errors: &mut W,
) {
    if let Ok(named) = Named::of(alloc, files, survey) {
        for (file, name) in files.iter().zip(&named.names) {
            if name.is_none() {
                tell_file(file, errors);
            }
        }
    }
}

fn tell_file<W: Write>(file: &SourceFile, errors: &mut W) {
    let pieces = [
        Piece::Bytes(b"breezesim: note: no place of the net is in the source "),
        Piece::Name(file.name.as_slice()),
        Piece::Bytes(b"\n"),
    ];
    let _ = put_pieces(errors, &pieces);
}

/// What the places of a net that were looked at say of a file.
#[derive(Clone, Copy)]
struct Naming<'s> {
    /// The name of the file.
    file: &'s [u8],
    is_named: bool,
    /// The first other name with the same last part.
    alike: Option<&'s [u8]>,
    has_several: bool,
    /// The name at which was looked last: records of one file follow one another.
    last: &'s [u8],
}

impl<'s> Naming<'s> {
    // What all places of a net say.
    fn of(survey: &'s Survey, file: &'s [u8]) -> Naming<'s> {
        let mut naming = Naming {
            file,
            is_named: false,
            alike: None,
            has_several: false,
            last: b"",
        };
        for number in 1..=u32::MAX {
            if survey.places.comp(number).is_none() {
                break;
            }
            naming.look(survey.comp_source(number));
        }
        for number in 1..=u32::MAX {
            if survey.places.chan(number).is_none() {
                break;
            }
            naming.look(survey.chan_source(number));
        }
        naming
    }

    fn look(&mut self, at: Option<SourceAt<'s>>) {
        let Some(SourceAt { file, .. }) = at else {
            return;
        };
        if file == self.last {
            return;
        }
        self.last = file;
        if file == self.file {
            self.is_named = true;
        } else if last_part(file) == last_part(self.file) {
            match self.alike {
                Some(other) => self.has_several = self.has_several || other != file,
                None => self.alike = Some(file),
            }
        }
    }

    // The name of the file in the net. Where no other file that is given has its last part it is alone.
    fn name(self, is_alone: bool) -> Option<&'s [u8]> {
        if self.is_named {
            Some(self.file)
        } else if is_alone && !self.has_several {
            self.alike
        } else {
            None
        }
    }
}

// Whether no other file has the last part of this one's name.
fn is_alone(files: &[SourceFile], file: &SourceFile) -> bool {
    let part = last_part(file.name.as_slice());
    let alike = files
        .iter()
        .filter(|other| last_part(other.name.as_slice()) == part);
    alike.count() == 1
}

// What stands behind the last slash of a path.
fn last_part(path: &[u8]) -> &[u8] {
    match path.iter().rposition(|byte| *byte == b'/') {
        Some(slash) => path.get(slash + 1..).unwrap_or(&[]),
        None => path,
    }
}
