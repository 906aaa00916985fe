//! By which ports a component is activated, and which are its branches.

use bz_flat::FlatComp;
use bz_kind_rows::row_of;
use bz_model::{Branches, Callers};

/// Ports of a component that follow one another, by number.
#[derive(Clone, Copy, PartialEq, Eq)]
pub(crate) struct Ports {
    pub first: u32,
    pub last: u32,
}

impl Ports {
    fn alone(port: u32) -> Ports {
        Ports {
            first: port,
            last: port,
        }
    }
}

/// The ports with whose requests a component's work begins: each at which several call it, or the one that its row names.
pub(crate) fn activation(comp: &FlatComp) -> Ports {
    let row = row_of(&comp.kind);
    match row.callers {
        Callers::Meet => Ports {
            first: 1,
            last: comp.sizes[0],
        },
        Callers::Arbitrated => Ports { first: 1, last: 2 },
        _ => Ports::alone(row.activation),
    }
}

/// The ports of which a component chooses one: the branches that a report tells. They are its last ones.
pub(crate) fn branches(comp: &FlatComp) -> Option<Ports> {
    let first = match row_of(&comp.kind).branches? {
        Branches::From(first) => first,
        Branches::BehindFirstArray(behind) => comp.sizes[0].saturating_add(behind),
    };
    let last = u32::try_from(comp.chans.len()).unwrap_or(u32::MAX);
    Some(Ports { first, last })
}
