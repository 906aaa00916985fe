//! The step that the next component makes, known before it is made.

ghost use Rattle.std.specs.Prelude.{◌≡◌, map, IsTrue};
ghost use Rattle.bz_flat.specs.Flats.{site_of};
ghost use Rattle.bz_model.specs.Runs.{CanStep, IsLowest};
ghost use Rattle.bz_net.specs.Due.{GivesAsSteps, HasStep};
ghost use Rattle.bz_net.specs.Foretelling.{IsForetold};
ghost use Rattle.bz_net.specs.Keeping.{Placed, state_of};
ghost use Rattle.bz_net.specs.LinkRow.{InRow};
ghost use Rattle.bz_net.specs.Nodes.{comps_of, heres_of};
ghost use Rattle.bz_net.specs.Told.{Sighted};

use crate::here::{carries, lowest_port};
use crate::kept_phases::Phases;
use crate::link_row::LinkRow;
use crate::moves::sends;
use crate::node_moves::look_at;
use crate::node_row::NodeRow;
use bz_arena::Arena;
use bz_flat::{Ends, FlatComp};
use bz_model::{Move, Value};

/// A step of a component at a port: its channel and its move.
#[derive(Clone, Copy)]
pub struct Foretold {
    pub comp: u32,
    pub port: u32,
    pub chan: u32,
    pub mv: Move,
}

/// The step that a component has at its lowest port.
#[inline(always)]
pub(crate) fn foretell(
    sites: &Arena<FlatComp>,
    ends: &[Ends],
    links: &LinkRow,
    phases: &Phases,
    nodes: &NodeRow,
    comp: u32,
) -> Foretold
    requires links { InRow (map site_of sites.now) ends.now links.now.starts.items links.now.row.items }
    requires placed { Placed (map site_of sites.now) phases.now (comps_of nodes.now) }
    requires sighted { Sighted (map site_of sites.now) phases.now (comps_of nodes.now) (heres_of nodes.now) }
    requires can { CanStep (map site_of sites.now) (state_of phases.now (comps_of nodes.now)) comp }
    ensures comp { result.comp ≡ comp }
    ensures lowest { IsLowest (map site_of sites.now) (state_of phases.now (comps_of nodes.now)) comp result.port }
    ensures foretold { IsForetold (map site_of sites.now) (state_of phases.now (comps_of nodes.now)) result }
{
    look_at(nodes, Some(comp));
    let Some(port) = lowest_port(sites, phases, nodes, comp) else {
        unreachable!()
    };
    let chan = links.link(comp, port as usize).chan;
    let mv = phases.next(chan as usize - 1);
    Foretold {
        comp,
        port,
        chan,
        mv,
    }
}

/// Whether the step that was foretold carries this value. A value is given where the move carries one.
#[inline(always)]
pub(crate) fn carries_told(
    sites: &Arena<FlatComp>,
    phases: &Phases,
    nodes: &NodeRow,
    told: Foretold,
    value: Option<Value>,
) -> bool
    requires placed { Placed (map site_of sites.now) phases.now (comps_of nodes.now) }
    requires sighted { Sighted (map site_of sites.now) phases.now (comps_of nodes.now) (heres_of nodes.now) }
    requires foretold { IsForetold (map site_of sites.now) (state_of phases.now (comps_of nodes.now)) told }
    requires given { GivesAsSteps (map site_of sites.now) (state_of phases.now (comps_of nodes.now)) told.comp told.chan told.mv value }
    ensures { IsTrue result → HasStep (map site_of sites.now) (state_of phases.now (comps_of nodes.now)) told.comp told.port told.chan told.mv value }
{
    if !sends(told.mv) {
        return phases.riding(told.chan as usize - 1) == value;
    }
    if value.is_none() {
        return true;
    }
    carries(sites, phases, nodes, told.comp, told.port, value)
}
