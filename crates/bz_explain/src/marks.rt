//! Marks of the records of a text.

use crate::data::Head;
use bz_breeze_records::{Component, Parts, Slot};
use std::alloc::{AllocError, Global};

/// Of each part a mark for each of its records of one sort.
#[derive(Drop)]
pub struct Marks {
    parts: Vec<Vec<bool>>,
}

impl Marks {
    /// No record of this sort is marked.
    pub fn none(alloc: Global, parts: &Parts, sort: Head) -> Result<Marks, AllocError> {
        let mut marks = Marks {
            parts: Vec::with_capacity(alloc, parts.list().len())?,
        };
        for part in parts.list() {
            let count = match sort {
                Head::Ports => part.ports.len(),
                Head::Channels => part.channels.len(),
                Head::Components => part.components.len(),
            };
            marks.add(vec![in alloc; false; count])?;
        }
        Ok(marks)
    }

    fn add(&mut self, part: Result<Vec<bool>, AllocError>) -> Result<(), AllocError> {
        Ok(self.parts.push(part?)?)
    }

    /// Whether the record at a position, from 1, of a part is marked.
    pub fn has(&self, part: usize, position: usize) -> bool {
        match self.parts.get(part) {
            Some(marks) => marks.get(position.saturating_sub(1)) == Some(&true),
            None => false,
        }
    }

    /// Marks it. Whether it was not marked before.
    pub fn set(&mut self, part: usize, position: usize) -> bool {
        if position == 0 || self.has(part, position) {
            return false;
        }
        match self.parts.get_mut(part) {
            Some(marks) => set(marks, position.saturating_sub(1)),
            None => false,
        }
    }

    /// Marks all channels of a part that a component of it names.
    pub fn set_named(&mut self, part: usize, component: &Component) {
        for entry in component.entries.as_slice() {
            match entry {
                Slot::One(chan) => {
                    self.set(part, *chan as usize);
                }
                Slot::Many(chans) => self.set_all(part, chans),
            }
        }
    }

    fn set_all(&mut self, part: usize, positions: &[u32]) {
        for position in positions {
            self.set(part, *position as usize);
        }
    }
}

/// Sets a mark. Whether there is one.
pub(crate) fn set(marks: &mut [bool], place: usize) -> bool {
    match marks.get_mut(place) {
        Some(mark) => {
            *mark = true;
            true
        }
        None => false,
    }
}
