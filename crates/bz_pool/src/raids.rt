//! What one worker steals with.

ghost use Rattle.std.specs.Prelude.{◌≡◌, IfOk};
ghost use Rattle.bz_pool_hints.specs.Hints.{Passed};

use bz_pool_hints::{HintOwner, HintPass, HintThief, Stolen, hints};
use std::alloc::{AllocError, Global};
use std::marker::Model;

/// A thief of another worker's deque, with a pass of that deque.
#[derive(Drop)]
pub struct Raid {
    thief: HintThief,
    pass: HintPass,
}

impl Model for Raid {
    ghost use Rattle.std.specs.Prelude.{◌≡◌};
    ghost use Rattle.bz_pool_hints.specs.Hints.{Passed};

    ghost Value = { Passed };

    ghost view = { λ r. r.pass };

    ghost invariant = { λ r. r.pass.deque ≡ r.thief };
}

impl Raid {
    pub fn new(thief: HintThief, pass: HintPass) -> Raid
        requires { pass.deque ≡ thief }
        ensures { result ≡ pass }
    {
        Raid { thief, pass }
    }

    /// A second one of the same deque.
    pub fn another(&self, owner: &HintOwner) -> Result<Raid, AllocError>
        requires { owner.now.deque ≡ self.now.deque }
        ensures { IfOk result (λ r. r.deque ≡ self.now.deque) }
    {
        let Ok(thief) = owner.another() else {
            return Err(AllocError);
        };
        let pass = self.pass.split(&thief);
        Ok(Raid { thief, pass })
    }

    /// A hint of the other worker, if one was there to take.
    pub fn steal(&mut self) -> Option<u32> {
        match self.thief.steal(&mut self.pass) {
            Stolen::Hint(comp) => Some(comp),
            Stolen::Empty | Stolen::Retry => None,
        }
    }
}

/// One worker's deque, with a raid of it to make others from.
#[derive(Drop)]
pub struct Deck {
    owner: HintOwner,
    raid: Raid,
}

impl Model for Deck {
    ghost use Rattle.std.specs.Prelude.{◌≡◌};
    ghost use Rattle.bz_pool_hints.specs.Hints.{Owned};

    ghost Value = { Owned };

    ghost view = { λ d. d.owner };

    ghost invariant = { λ d. d.raid.deque ≡ d.owner.deque };
}

impl Deck {
    pub fn new(alloc: Global) -> Result<Deck, AllocError> {
        let Ok((owner, thief, pass)) = hints(alloc) else {
            return Err(AllocError);
        };
        Ok(Deck {
            owner,
            raid: Raid::new(thief, pass),
        })
    }

    /// A raid for another worker.
    pub fn raid(&self) -> Result<Raid, AllocError> {
        self.raid.another(&self.owner)
    }

    pub fn into_owner(self) -> HintOwner {
        let Deck { owner, raid: _ } = self;
        owner
    }
}

/// A deck for each of `count` workers.
pub fn decks(alloc: Global, count: usize) -> Result<Vec<Deck>, AllocError> {
    let mut decks = Vec::new(alloc);
    for _ in 0..count {
        decks.push(Deck::new(alloc)?)?;
    }
    Ok(decks)
}

/// Raids of all decks but one.
pub fn raids(alloc: Global, decks: &[Deck], own: usize) -> Result<Vec<Raid>, AllocError> {
    let mut raids = Vec::new(alloc);
    for (at, deck) in decks.iter().enumerate() {
        if at != own {
            raids.push(deck.raid()?)?;
        }
    }
    Ok(raids)
}

/// The raids of each worker.
pub fn all_raids(alloc: Global, decks: &[Deck]) -> Result<Vec<Vec<Raid>>, AllocError> {
    let mut all = Vec::new(alloc);
    for own in 0..decks.len() {
        all.push(raids(alloc, decks, own)?)?;
    }
    Ok(all)
}
