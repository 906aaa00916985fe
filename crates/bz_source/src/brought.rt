//! What the instances of parts bring into a net: how many channels and components.

use bz_breeze_records::{Part, Parts};
use std::alloc::{AllocError, Global};

/// How many channels and components.
#[derive(Clone, Copy)]
pub(crate) struct Brought {
    pub chans: u32,
    pub comps: u32,
}

/// For each component of a part what those before it bring, and last what all do; nothing where none of them is an instance.
#[derive(Drop)]
pub(crate) struct Before {
    list: Vec<Brought>,
}

impl Brought {
    const NONE: Brought = Brought { chans: 0, comps: 0 };

    fn and(self, more: Brought) -> Brought {
        Brought {
            chans: self.chans.saturating_add(more.chans),
            comps: self.comps.saturating_add(more.comps),
        }
    }
}

impl Before {
    /// Whether a component of the part is an instance.
    pub fn has_instances(&self) -> bool {
        !self.list.is_empty()
    }

    /// Of the n-th component that is brought: the position of the component of the part that brings it, counted from 1, and
    /// which of those it is that are brought there.
    pub fn comp(&self, number: u32) -> Option<(usize, u32)> {
        let position = self.list.partition_point(|it| it.comps < number);
        let before = self.list.get(position.checked_sub(1)?)?.comps;
        self.inside(position, number.saturating_sub(before))
    }

    /// The same of a channel.
    pub fn chan(&self, number: u32) -> Option<(usize, u32)> {
        let position = self.list.partition_point(|it| it.chans < number);
        let before = self.list.get(position.checked_sub(1)?)?.chans;
        self.inside(position, number.saturating_sub(before))
    }

    // The position, where a component stands there.
    fn inside(&self, position: usize, number: u32) -> Option<(usize, u32)> {
        if position < self.list.len() {
            Some((position, number))
        } else {
            None
        }
    }
}

/// How many channels a copy of a part has beside its ports.
pub(crate) fn own_chans(part: &Part) -> u32 {
    short(part.channels.len().saturating_sub(part.ports.len()))
}

/// For each part that is reached from one, by a path of fewer instances than `depth`, what its components bring.
pub(crate) fn brought_in(
    alloc: Global,
    parts: &Parts,
    number: usize,
    depth: u32,
    known: &mut Vec<Option<Before>>,
) -> Result<(), AllocError> {
    let Some(part) = parts.list().get(number) else {
        return Ok(());
    };
    if depth == 0 || before_in(known.as_slice(), number).is_some() {
        return Ok(());
    }
    let mut list = Vec::new(alloc);
    if has_instances(parts, part) {
        let mut sum = Brought::NONE;
        for component in &part.components {
            list.push(sum)?;
            let more = match parts.number(component.name.as_slice()) {
                None => Brought { chans: 0, comps: 1 },
                Some(inner) => {
                    brought_in(alloc, parts, inner, depth - 1, known)?;
                    brought_by(parts, known.as_slice(), inner)
                }
            };
            sum = sum.and(more);
        }
        list.push(sum)?;
    }
    if let Some(place) = known.get_mut(number) {
        *place = Some(Before { list });
    }
    Ok(())
}

/// What is known of a part.
pub(crate) fn before_in(known: &[Option<Before>], number: usize) -> Option<&Before> {
    match known.get(number) {
        Some(Some(before)) => Some(before),
        _ => None,
    }
}

fn has_instances(parts: &Parts, part: &Part) -> bool {
    for component in &part.components {
        if parts.number(component.name.as_slice()).is_some() {
            return true;
        }
    }
    false
}

// What a copy of a part brings, with its own channels.
fn brought_by(parts: &Parts, known: &[Option<Before>], number: usize) -> Brought {
    let Some(part) = parts.list().get(number) else {
        return Brought::NONE;
    };
    let own = Brought {
        chans: own_chans(part),
        comps: 0,
    };
    own.and(brought_inside(part, before_in(known, number)))
}

fn brought_inside(part: &Part, before: Option<&Before>) -> Brought {
    let all = match before {
        Some(before) => before.list.last(),
        None => None,
    };
    match all {
        Some(all) => *all,
        None => Brought {
            chans: 0,
            comps: short(part.components.len()),
        },
    }
}

fn short(count: usize) -> u32 {
    u32::try_from(count).unwrap_or(u32::MAX)
}
