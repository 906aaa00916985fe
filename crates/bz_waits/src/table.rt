//! A number for each component.

use std::alloc::{AllocError, Global};

/// A number for each component. Components count from 1.
pub struct Table(Vec<u32>);

// By hand, as that of a `Graph`.
impl Drop for Table {
    fn drop(self) {
        let Table(_) = self;
    }
}

impl Table {
    /// One of zeros, for so many components.
    pub fn new(alloc: Global, comps: u32) -> Result<Table, AllocError> {
        let length = (comps as usize).saturating_add(1);
        Ok(Table(vec![in alloc; 0u32; length]?))
    }

    pub(crate) fn comps(&self) -> u32 {
        u32::try_from(self.0.len())
            .unwrap_or(u32::MAX)
            .saturating_sub(1)
    }

    /// The number of a component, 0 where there is no such component.
    pub fn at(&self, comp: u32) -> u32 {
        self.0.get(comp as usize).copied().unwrap_or(0)
    }

    pub fn set(&mut self, comp: u32, number: u32) {
        if let Some(place) = self.0.get_mut(comp as usize) {
            *place = number;
        }
    }
}
