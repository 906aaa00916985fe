//! A net that benches are played on, as it is opened, and where everything in it is from.

ghost use Rattle.std.specs.Prelude.{◌≡◌};
ghost use Rattle.bz_cli_bench.specs.Cases.{IsNet};

use bz_cli_input::Fault;
use bz_cli_source::survey_of;
use bz_flat::Flat;
use bz_source::Survey;
use std::alloc::Global;
use std::marker::Model;

/// The net of a part of a netlist.
pub(crate) struct Opened {
    flat: Flat,
    survey: Survey,
}

// By hand, so that who lets one go has one call to show and not all its parts.
impl Drop for Opened {
    fn drop(self) {
        let Opened { flat: _, survey: _ } = self;
    }
}

impl Model for Opened {
    ghost use Rattle.bz_cli_bench.specs.Cases.{IsNet};
    ghost use Rattle.bz_model.specs.Nets.{Wiring};

    ghost Value = { Wiring };

    ghost view = { λ o. o.flat.wiring };

    ghost invariant = { λ o. IsNet o.flat.wiring };
}

impl Opened {
    /// The net of the part that is asked for, or else of the only one that no other part uses.
    pub(crate) fn of(alloc: Global, asked: Option<&[u8]>, text: &[u8]) -> Result<Opened, Fault> {
        let (flat, survey, _) = survey_of(alloc, asked, text)?;
        Ok(Opened { flat, survey })
    }

    pub(crate) fn flat(&self) -> &Flat
        ensures wiring { result.now.wiring ≡ self.now }
        ensures net { IsNet self.now }
    {
        &self.flat
    }

    pub(crate) fn survey(&self) -> &Survey {
        &self.survey
    }
}
