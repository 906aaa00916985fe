//! How often components moved and ports were used.
//!
//! A port is the one end of its kind that its channel has. So a request is counted by its channel and its move, in one step,
//! and no port is looked for.

ghost use Rattle.std.specs.Prelude.{◌≡◌, ◌∷◌, [], ◌+◌, min, length, IfOk, List};
ghost use Rattle.bz_model.specs.declared.event.Entry.{Entry};
ghost use Rattle.bz_model.specs.Names.{numbered};
ghost use Rattle.bz_model.specs.Nets.{IsPort, Wiring};
ghost use Rattle.bz_cover.specs.Counts.{Adds, AreCounts, CountsOn, HasPlaces, Raises, port_tally, tally};

use bz_kind_rows::is_passive;
use bz_model::{Entry, Move, numbered};
use bz_net::Core;
use std::alloc::{AllocError, Global};
use std::marker::Model;

/// How often each component of a net moved, and how often each of its ports was used, over all traces that were counted. A port
/// is used with each request: an active one where it asks, a passive one where it takes.
pub struct Coverage {
    comps: Vec<u64>,
    asks: Vec<u64>,
    takes: Vec<u64>,
}

// By hand, so that who lets one go has one call to show and not all its parts.
impl Drop for Coverage {
    fn drop(self) {
        let Coverage {
            comps: _,
            asks: _,
            takes: _,
        } = self;
    }
}

impl Model for Coverage {
    ghost use Rattle.bz_cover.specs.Counts.{Tallies};

    ghost Value = { Tallies };

    ghost view = { λ c. record { comps = c.comps.items; asks = c.asks.items; takes = c.takes.items } };
}

impl Coverage {
    /// That of a net of which nothing was counted yet.
    pub fn new(alloc: Global, core: &Core) -> Result<Coverage, AllocError>
        ensures places { IfOk result (HasPlaces core.now.wiring) }
        ensures none { IfOk result (λ coverage. AreCounts coverage []) }
    {
        let comps = vec![in alloc; 0u64; core.comp_count() as usize + 1]?;
        let chans = core.chan_count() as usize + 1;
        let asks = vec![in alloc; 0u64; chans]?;
        let takes = vec![in alloc; 0u64; chans]?;
        Ok(Coverage { comps, asks, takes })
    }

    /// Counts one entry more.
    #[inline(always)]
    pub fn add(&mut self, entry: &Entry)
        ensures { CountsOn self.old (entry.now ∷ []) self.new }
    {
        let Entry::Fired { comp, chan, mv, .. } = *entry else {
            return;
        };
        raise(&mut self.comps, comp);
        match mv {
            Move::Ask => raise(&mut self.asks, chan),
            Move::Take => raise(&mut self.takes, chan),
            Move::Reply => {}
            Move::Got => {}
        }
    }

    /// Counts also what another has counted of the same net.
    pub fn add_all(&mut self, other: &Coverage)
        ensures { (w : Wiring) (entries : List Entry) → HasPlaces w self.old → HasPlaces w other.now
            → AreCounts other.now entries → CountsOn self.old entries self.new }
    {
        add_row(&mut self.comps, &other.comps);
        add_row(&mut self.asks, &other.asks);
        add_row(&mut self.takes, &other.takes);
    }

    /// How often a component moved.
    pub fn of(&self, comp: u32) -> u64
        ensures { result ≡ tally self.now.comps comp }
    {
        at(&self.comps, comp as usize)
    }

    /// How often a port of a component was used; 0 where there is no such port.
    pub fn of_port(&self, core: &Core, comp: u32, port: u32) -> u64
        ensures { IsPort core.now.wiring.sites comp port
            → result ≡ port_tally core.now.wiring self.now comp port }
    {
        let Some(site) = core.comp(comp) else {
            return 0;
        };
        let Some(chan) = chan_at(&site.chans, port) else {
            return 0;
        };
        if is_passive(&site.kind, site.sizes, port) {
            at(&self.takes, chan as usize)
        } else {
            at(&self.asks, chan as usize)
        }
    }
}

// Adds a row of counts to another.
fn add_row(row: &mut [u64], other: &[u64])
    ensures { Adds row.old other.now row.new }
{
    for place in 0..row.len() {
        row[place] = row[place].saturating_add(at(other, place));
    }
}

// The channel at a port, if there is one.
fn chan_at(chans: &[u32], port: u32) -> Option<u32>
    ensures { result ≡ numbered chans.now port }
{
    numbered(chans, port).copied()
}

// The count at a place, 0 where there is none.
fn at(row: &[u64], place: usize) -> u64
    ensures { result ≡ tally row.now place }
{
    match row.get(place) {
        Some(count) => *count,
        None => 0,
    }
}

// Counts one more at a place, where there is one.
#[inline(always)]
#[tactic(auto, using(crate::proofs::Tallies::raises_here, crate::proofs::Tallies::raises_none))]
fn raise(row: &mut Vec<u64>, place: u32)
    ensures { Raises row.old.items place row.new.items }
{
    let place = place as usize;
    if place >= row.len() {
        return;
    }
    row[place] = row[place].saturating_add(1);
}
