//! The cells of a component's box, at which edges end.
//!
//! A side of a box has its ports' names only where it has several: of one alone the kind says it already, and boxes are a
//! third narrower. With more than 16 ports the single ones too are cells under their names, with the channel's number at the
//! far end.

use bz_flat::FlatComp;
use bz_kind_rows::{PortAt, port_at, port_table};

/// The most ports of a component whose arrays have a cell for each port.
const MOST_CELLS: usize = 16;

/// The most passive ports of a component that is no hub.
const MOST_CALLERS: u32 = 4;

/// Where an edge ends at a component.
#[derive(Clone, Copy)]
pub(crate) enum Cell {
    /// At the side of the box, where it has one port alone.
    Side,
    /// At the cell of this port.
    Port(u32),
    /// At the cell of this row of ports.
    Row(&'static str),
}

/// Whether the rows of a component's ports have one cell each.
pub(crate) fn is_wide(comp: &FlatComp) -> bool {
    comp.chans.len() > MOST_CELLS
}

/// Where the edge of a port ends.
pub(crate) fn cell_of(comp: &FlatComp, port: u32) -> Cell {
    match port_at(&comp.kind, comp.sizes, port) {
        Some(at) if !has_cells(comp, at.row.passive) => Cell::Side,
        Some(at) if is_wide(comp) => Cell::Row(at.row.name),
        _ => Cell::Port(port),
    }
}

/// Whether a side has cells: more than one port.
pub(crate) fn has_cells(comp: &FlatComp, passive: bool) -> bool {
    count_ports(comp, passive) > 1
}

/// Whether edges come to a component from many sides, as to a variable that is read in many places.
pub(crate) fn is_hub(comp: &FlatComp) -> bool {
    count_ports(comp, true) > MOST_CALLERS
}

// How many ports a side has.
fn count_ports(comp: &FlatComp, passive: bool) -> u32 {
    let mut sizes = comp.sizes.iter();
    let mut count = 0u32;
    for row in port_table(&comp.kind) {
        let members = if row.array {
            sizes.next().copied().unwrap_or(0)
        } else {
            1
        };
        if row.passive == passive {
            count = count.saturating_add(members);
        }
    }
    count
}

/// The port of this number, where it begins a cell of that side: each does, or the first of each row.
pub(crate) fn cell_begun(comp: &FlatComp, passive: bool, port: u32) -> Option<PortAt> {
    match port_at(&comp.kind, comp.sizes, port) {
        Some(at) if at.row.passive != passive => None,
        Some(at) if is_wide(comp) && at.member.unwrap_or(1) > 1 => None,
        at => at,
    }
}
