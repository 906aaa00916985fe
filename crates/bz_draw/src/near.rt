//! What is near a component.

use crate::drawing::{Drawing, Edge, Tip};
use bz_flat::Pieces;
use bz_model::node_of;
use std::alloc::{AllocError, Global};

/// The components at most so many channels away from one.
#[derive(Drop)]
pub(crate) struct Near {
    /// Of each component whether it is one.
    is_near: Vec<bool>,
    /// Those that are, the nearest first, and how many channels they are away.
    reached: Vec<(u32, u32)>,
}

impl Near {
    pub fn of(alloc: Global, net: &Pieces, comp: u32, hops: u32) -> Result<Near, AllocError> {
        let mut near = Near {
            is_near: vec![in alloc; false; net.comps.len()]?,
            reached: Vec::new(alloc),
        };
        near.reach(Some(comp), 0)?;
        for place in 0..net.comps.len() {
            match near.reached.get(place).copied() {
                Some((comp, away)) if away < hops => near.go_on(net, comp, away + 1)?,
                _ => break,
            }
        }
        Ok(near)
    }

    // Reaches what is one channel away from a component, and so far from the first.
    fn go_on(&mut self, net: &Pieces, comp: u32, away: u32) -> Result<(), AllocError> {
        if let Some(comp) = node_of(&net.comps, comp) {
            for chan in comp.chans.as_slice() {
                if let Some(ends) = net.ends.get((*chan as usize).wrapping_sub(1)) {
                    self.reach(ends.active, away)?;
                    self.reach(ends.passive, away)?;
                }
            }
        }
        Ok(())
    }

    fn reach(&mut self, comp: Option<u32>, away: u32) -> Result<(), AllocError> {
        let Some(comp) = comp else { return Ok(()) };
        match self.is_near.get_mut((comp as usize).wrapping_sub(1)) {
            Some(is_near) if !*is_near => *is_near = true,
            _ => return Ok(()),
        }
        self.reached.push((comp, away))?;
        Ok(())
    }

    fn has(&self, comp: u32) -> bool {
        self.is_near.get((comp as usize).wrapping_sub(1)) == Some(&true)
    }

    fn has_tip(&self, tip: Tip) -> bool {
        match tip {
            Tip::Comp { comp, .. } => self.has(comp),
            _ => false,
        }
    }

    /// Leaves of a drawing what is near: these components, and the channels that end at one of them.
    pub fn narrow(&self, alloc: Global, drawing: &mut Drawing) -> Result<(), AllocError> {
        drawing.comps.retain(|node| self.has(node.1));
        drawing
            .edges
            .retain(|edge| self.has_tip(edge.from) || self.has_tip(edge.to));
        drawing.beyond = self.beyond(alloc, drawing.edges.as_slice())?;
        Ok(())
    }

    // The other components that these channels lead to, each once and sorted.
    fn beyond(&self, alloc: Global, edges: &[Edge]) -> Result<Vec<u32>, AllocError> {
        let mut beyond = Vec::new(alloc);
        for edge in edges {
            for tip in [edge.from, edge.to] {
                match tip {
                    Tip::Comp { comp, .. } if !self.has(comp) => beyond.push(comp)?,
                    _ => {}
                }
            }
        }
        beyond.sort()?;
        beyond.dedup();
        Ok(beyond)
    }
}
