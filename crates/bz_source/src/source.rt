//! A text that was read once: its parts, and where their records begin.

ghost use Rattle.std.specs.Prelude.{◌≡◌, ◌⊎◌, IfOk, IfErr};
ghost use Rattle.bz_source.specs.declared.error.PlacesError.TheVariants.{Memory};
ghost use Rattle.bz_source.specs.Found.{Locates, Misses};
ghost use Rattle.bz_source.specs.Net.{FindsNamed};

use crate::error::PlacesError;
use crate::lines::PartLines;
use crate::places::Places;
use crate::survey::Survey;
use bz_breeze_records::Parts;
use std::alloc::Global;

/// The parts of a text, and the lines at which their records begin.
pub struct Source {
    pub parts: Parts,
    /// Of each part, in the order of the text.
    pub lines: Vec<PartLines>,
}

// By hand, so that who lets one go has one call to show and not all its parts.
impl Drop for Source {
    fn drop(self) {
        let Source { parts: _, lines: _ } = self;
    }
}

impl Source {
    /// Where everything in the net of the first part of that name stands. This may take longer than to make the net.
    pub fn survey(self, alloc: Global, part: &[u8]) -> Result<Survey, PlacesError>
        ensures parts { IfOk result (λ s. s.parts ≡ self.parts) }
        ensures lines { IfOk result (λ s. s.lines ≡ self.lines) }
        ensures places { IfOk result (λ s. Locates self.parts part.now s.places) }
        ensures net { IfOk result (λ s. FindsNamed self.parts part.now s.places) }
        ensures err { IfErr result (λ e. (e ≡ Memory) ⊎ Misses self.parts part.now e) }
    {
        let Source { parts, lines } = self;
        match Places::of(alloc, &parts, part) {
            Ok(places) => Ok(Survey {
                parts,
                places,
                lines,
            }),
            Err(error) => Err(error),
        }
    }
}
