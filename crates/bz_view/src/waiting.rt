//! Who waits for whom, and what can never move again.

use bz_model::Phase;
use bz_net::Core;
use bz_waits::{Graph, Stuck, Table};
use std::alloc::{AllocError, Global};

/// Who waits for whom in a net, and what can never move again.
#[derive(Drop)]
pub(crate) struct Waiting<'s> {
    pub graph: Graph,
    pub stuck: &'s Stuck,
}

impl<'s> Waiting<'s> {
    /// With what can never move again, which is known.
    pub fn of(alloc: Global, net: &Core, stuck: &'s Stuck) -> Result<Waiting<'s>, AllocError> {
        let comps = under_way(alloc, net)?;
        Ok(Waiting {
            graph: Graph::of_comps(alloc, net, comps.as_slice())?,
            stuck,
        })
    }
}

// The components with a port on a channel that isn't idle, by their numbers. No other one owes a reply or waits for one: of a large
// net this looks at few.
fn under_way(alloc: Global, net: &Core) -> Result<Vec<u32>, AllocError> {
    let mut met = Table::new(alloc, net.comp_count())?;
    for place in 0..net.chan_count() {
        if net.phase(place + 1) != Phase::Idle {
            let [active, passive] = net.ends(place + 1);
            met.set(active.unwrap_or(0), 1);
            met.set(passive.unwrap_or(0), 1);
        }
    }
    let mut comps = Vec::new(alloc);
    for comp in 1..=net.comp_count() {
        if met.at(comp) > 0 {
            comps.push(comp)?;
        }
    }
    Ok(comps)
}
