//! The wait-for graph of a net.

ghost use Rattle.std.specs.Prelude.{◌≡◌, ◌<◌, ◌≤◌, ◌+◌, length, take, IfOk};
ghost use Rattle.std.specs.List.{All};
ghost use Rattle.bz_waits.specs.Adding.{AddsAll, AddsComp, WaitsBefore};
ghost use Rattle.bz_waits.specs.Cycles.{AreCycles};
ghost use Rattle.bz_waits.specs.Waiting.{AreWaits, AreWaitsOf, IsAwaited, IsPlace, IsStuck, IsWait};

use crate::cycles::cycles;
use crate::due::{chooses, is_due, next_due, owed_chan};
use crate::sites::port_count;
use crate::table::Table;
use crate::wait::{Place, Wait};
use bz_model::Move;
use bz_net::Core;
use std::alloc::{AllocError, Global};

/// Who waits for whom in a net in a state.
pub struct Graph {
    /// What each component waits for that can't move, by components.
    pub waits: Vec<Wait>,
    /// How many components these are.
    pub waiting: usize,
    /// The cycles of those that wait for one another in any case, each from its least member on.
    pub cycles: Vec<Vec<u32>>,
}

// By hand, so that who lets one go has one call to show and not all its parts.
impl Drop for Graph {
    fn drop(self) {
        let Graph {
            waits: _,
            waiting: _,
            cycles: _,
        } = self;
    }
}

impl Graph {
    /// That of a net.
    pub fn of(alloc: Global, core: &Core) -> Result<Graph, AllocError>
        ensures waits { IfOk result (λ graph. AreWaits core.now.wiring.sites core.now.state graph.waits.items) }
        ensures cycles { IfOk result (λ graph. AreCycles graph.waits.items graph.cycles.items) }
    {
        let (waits, waiting) = waits_of(alloc, core)?;
        let cycles = cycles(alloc, core.comp_count(), &waits)?;
        Ok(Graph {
            waits,
            waiting,
            cycles,
        })
    }

    /// That of these components alone, their numbers rising.
    pub fn of_comps(alloc: Global, core: &Core, comps: &[u32]) -> Result<Graph, AllocError>
        ensures waits { IfOk result (λ graph. AreWaitsOf core.now.wiring.sites core.now.state comps.now graph.waits.items) }
        ensures cycles { IfOk result (λ graph. AreCycles graph.waits.items graph.cycles.items) }
    {
        let (waits, waiting) = waits_among(alloc, core, comps)?;
        let cycles = cycles(alloc, core.comp_count(), &waits)?;
        Ok(Graph {
            waits,
            waiting,
            cycles,
        })
    }

    /// What a component waits for.
    pub fn waits_of(&self, comp: u32) -> &[Wait] {
        let first = self.waits.partition_point(|wait| wait.comp < comp);
        let end = self.waits.partition_point(|wait| wait.comp <= comp);
        self.waits.get(first..end).unwrap_or(&[])
    }

    /// A component, whom it waits for, whom these wait for, and so on: all that were not `met`, which is noted.
    pub fn hung(&self, alloc: Global, comp: u32, met: &mut Table) -> Result<Vec<u32>, AllocError> {
        let mut order = Vec::new(alloc);
        met.set(comp, 1);
        order.push(comp)?;
        for turn in 0..=self.waits.len() {
            let Some(comp) = order.get(turn).copied() else {
                break;
            };
            for wait in self.waits_of(comp) {
                if wait.other > 0 && met.at(wait.other) == 0 {
                    met.set(wait.other, 1);
                    order.push(wait.other)?;
                }
            }
        }
        Ok(order)
    }
}

// What all components wait for that can't move, and how many these are.
fn waits_of(alloc: Global, core: &Core) -> Result<(Vec<Wait>, usize), AllocError>
    ensures { IfOk result (λ made. AreWaits core.now.wiring.sites core.now.state made.0.items) }
{
    let (mut waits, mut waiting) = (Vec::new(alloc), 0usize);
    for place in 0..core.comp_count() {
        let before = waits.len();
        add_next(core, place + 1, &mut waits)?;
        if waits.len() > before {
            waiting = waiting.saturating_add(1);
        }
    }
    Ok((waits, waiting))
}

// The same of these components.
fn waits_among(alloc: Global, core: &Core, comps: &[u32]) -> Result<(Vec<Wait>, usize), AllocError>
    ensures { IfOk result (λ made. AreWaitsOf core.now.wiring.sites core.now.state comps.now made.0.items) }
{
    let (mut waits, mut waiting) = (Vec::new(alloc), 0usize);
    for place in 0..comps.len() {
        let before = waits.len();
        add_listed(core, comps, place, &mut waits)?;
        if waits.len() > before {
            waiting = waiting.saturating_add(1);
        }
    }
    Ok((waits, waiting))
}

// What the component at a place of a list waits for, after those before it there.
fn add_listed(
    core: &Core,
    comps: &[u32],
    place: usize,
    waits: &mut Vec<Wait>,
) -> Result<(), AllocError>
    requires within { place < length comps.now }
    requires so { AreWaitsOf core.now.wiring.sites core.now.state (take place comps.now) waits.old.items }
    ensures { IfOk result (λ _. AreWaitsOf core.now.wiring.sites core.now.state (take (place + 1) comps.now) waits.new.items) }
{
    add_if_there(core, comps[place], waits)
}

// What a component waits for, if there is one of this number.
fn add_if_there(core: &Core, comp: u32, waits: &mut Vec<Wait>) -> Result<(), AllocError>
    requires { All (IsWait core.now.wiring.sites core.now.state) waits.old.items }
    ensures { IfOk result (λ _. AddsComp core.now.wiring.sites core.now.state comp waits.old.items waits.new.items) }
{
    if comp == 0 {
        return Ok(());
    }
    if comp > core.comp_count() {
        return Ok(());
    }
    add_comp(core, comp, waits)
}

// What a component waits for, after those before it.
fn add_next(core: &Core, comp: u32, waits: &mut Vec<Wait>) -> Result<(), AllocError>
    requires from { 0 < comp }
    requires to { comp ≤ length core.now.wiring.sites }
    requires before { WaitsBefore core.now.wiring.sites core.now.state comp waits.old.items }
    ensures { IfOk result (λ _. WaitsBefore core.now.wiring.sites core.now.state (comp + 1) waits.new.items) }
{
    add_comp(core, comp, waits)
}

// What a component waits for: for replies, or for requests where it owes a reply. Or it has halted.
fn add_comp(core: &Core, comp: u32, waits: &mut Vec<Wait>) -> Result<(), AllocError>
    requires from { 0 < comp }
    requires to { comp ≤ length core.now.wiring.sites }
    requires each { All (IsWait core.now.wiring.sites core.now.state) waits.old.items }
    ensures { IfOk result (λ _. AddsComp core.now.wiring.sites core.now.state comp waits.old.items waits.new.items) }
{
    if core.is_ready(comp) {
        return Ok(());
    }
    if next_due(core, comp, Move::Got, 0).is_some() {
        return add_due(core, comp, Move::Got, waits);
    }
    let Some(chan) = owed_chan(core, comp) else {
        return Ok(());
    };
    if next_due(core, comp, Move::Take, 0).is_some() {
        return add_due(core, comp, Move::Take, waits);
    }
    waits.push(Wait::halted(comp, chan))?;
    Ok(())
}

// What a component waits for at each port at which this move is due.
fn add_due(core: &Core, comp: u32, due: Move, waits: &mut Vec<Wait>) -> Result<(), AllocError>
    requires from { 0 < comp }
    requires to { comp ≤ length core.now.wiring.sites }
    requires stuck { IsStuck core.now.wiring.sites core.now.state comp }
    requires awaited { IsAwaited core.now.wiring.sites core.now.state comp due }
    requires each { All (IsWait core.now.wiring.sites core.now.state) waits.old.items }
    ensures { IfOk result (λ _. AddsAll core.now.wiring.sites core.now.state comp due waits.old.items waits.new.items) }
{
    let mut place = first_place(core, comp, due);
    for before in 0..port_count(core, comp) {
        if is_due(core, comp, before + 1, due) {
            waits.push(Wait::at_port(core, comp, before + 1, due, place))?;
            place = place.next();
        }
    }
    Ok(())
}

// The place of the first port at which a component waits.
fn first_place(core: &Core, comp: u32, due: Move) -> Place
    requires from { 0 < comp }
    requires to { comp ≤ length core.now.wiring.sites }
    ensures { IsPlace core.now.wiring.sites core.now.state comp due result }
{
    if chooses(core, comp, due) {
        Place::First
    } else {
        Place::Each
    }
}
