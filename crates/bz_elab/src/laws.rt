//! Laws of the net by paths. These functions do nothing: what they ensure is proved.

ghost use Rattle.bz_elab.specs.Paths.{all_places};
ghost use Rattle.bz_elab.specs.Walks.{Differ, MeetsInOrder, MeetsLeaves};

use bz_breeze_records::Part;

/// The places of the channels of a net differ, so each has one number.
pub fn places_differ(_parts: &[Part], _top: &Part)
    ensures { Differ (all_places _parts.now _top.now) }
{}

/// The walk of a net meets each component that is no instance.
pub fn leaves_are_met(_parts: &[Part], _top: &Part)
    ensures { MeetsLeaves _parts.now _top.now }
{}

/// The walk of a net goes by the order of paths.
pub fn stops_rise(_parts: &[Part], _top: &Part)
    ensures { MeetsInOrder _parts.now _top.now }
{}
