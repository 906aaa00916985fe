//! The set of what can never move again.

ghost use Rattle.std.specs.Prelude.{◌≡◌, ◌+◌, ◌≤◌, IfOk, length};
ghost use Rattle.bz_waits.specs.Rings.{IsRing};
ghost use Rattle.bz_waits.specs.Stuck.{AreComps, AreNumbers, AreStuck, IsGreatest, HasCount, is_member};

use crate::looking::has;
use crate::rings::{Link, ring};
use crate::searching::search;
use bz_net::Core;
use std::alloc::{AllocError, Global};
use std::marker::Model;

/// Components that can never move again.
pub struct Stuck {
    members: Vec<bool>,
    numbers: Vec<u32>,
}

// By hand, so that who lets one go has one call to show and not all its parts.
impl Drop for Stuck {
    fn drop(self) {
        let Stuck {
            members: _,
            numbers: _,
        } = self;
    }
}

impl Model for Stuck {
    ghost use Rattle.std.specs.Prelude.{List, Bool};
    ghost use Rattle.bz_waits.specs.Stuck.{AreNumbers};

    ghost Value = { List Bool };

    ghost view = { λ s. s.members.items };

    ghost invariant = { λ s. AreNumbers s.members.items s.numbers.items };
}

impl Stuck {
    /// All components of a net that can never move again from the state that it is in, whatever hosts do.
    pub fn of(alloc: Global, core: &Core) -> Result<Stuck, AllocError>
        ensures comps { IfOk result (λ set. AreComps core.now.wiring (is_member set)) }
        ensures stuck { IfOk result (λ set. AreStuck core.now.wiring core.now.state (is_member set)) }
        ensures greatest { IfOk result (λ set. IsGreatest core.now.wiring core.now.state (is_member set)) }
    {
        let members = search(alloc, core)?;
        let numbers = numbers_of(alloc, &members, core.comp_count())?;
        Ok(Stuck { members, numbers })
    }

    /// Whether a component is one of them.
    pub fn contains(&self, comp: u32) -> bool
        ensures { result ≡ is_member self.now comp }
    {
        has(&self.members, comp)
    }

    /// How many there are.
    pub fn len(&self) -> usize
        ensures { HasCount self.now result }
    {
        self.numbers.len()
    }

    /// Their numbers, rising.
    pub fn numbers(&self) -> &[u32]
        ensures { AreNumbers self.now result.now }
    {
        &self.numbers
    }

    /// A short ring of them, each of which waits for the next, and the last for the first. Nothing where none is found. It begins
    /// at the least of its members that hold a request.
    pub fn ring(&self, alloc: Global, core: &Core) -> Result<Vec<Link>, AllocError>
        ensures { IfOk result (λ links. IsRing core.now.wiring core.now.state (is_member self.now) links.items) }
    {
        self.ring_from(alloc, core, &self.numbers)
    }

    /// A short ring on which some of these components hang, their numbers rising; it is as `ring` tells.
    pub fn ring_from(
        &self,
        alloc: Global,
        core: &Core,
        starts: &[u32],
    ) -> Result<Vec<Link>, AllocError>
        ensures { IfOk result (λ links. IsRing core.now.wiring core.now.state (is_member self.now) links.items) }
    {
        ring(alloc, core, &self.members, starts)
    }
}

// The numbers of the members of a row, for this number of components.
fn numbers_of(alloc: Global, members: &[bool], comps: u32) -> Result<Vec<u32>, AllocError>
    requires { length members.now ≤ comps + 1 }
    ensures { IfOk result (λ numbers. AreNumbers members.now numbers.items) }
{
    let mut numbers = Vec::new(alloc);
    for place in 0..comps {
        if has(members, place + 1) {
            numbers.push(place + 1)?;
        }
    }
    Ok(numbers)
}
