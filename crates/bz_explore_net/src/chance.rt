//! Moves that are picked by chance.
//!
//! A move is picked in two draws, a component and then a port, so each component that can move is as likely as any other,
//! however many of its ports can. The picking goes on only with moves that are made.

ghost use Rattle.std.specs.Prelude.{◌≡◌, ◌<◌, ◌%◌, ℕ, length, IfErr, IfNone, IfOk, IfSome, OnErr};
ghost use Rattle.bz_model.specs.Nets.{StepsAt, site_at};
ghost use Rattle.bz_model.specs.Runs.{CanStep};
ghost use Rattle.bz_net.specs.Keeping.{IsMarked, MarksReady};
ghost use Rattle.bz_net.specs.Replies.{RefusesEntry};
ghost use Rattle.bz_net.specs.Simulation.{Adds};
ghost use Rattle.bz_explore_net.specs.Picking.{after, drawn, HasMembers, IsPickedEntry, IsPlace, RanByChance};

use crate::counted::CountedRow;
use crate::movers::look_behind;
use crate::offers::port_count;
use crate::picker::Picker;
use bz_model::{Entry, NetError, Who};
use bz_net::{Net, RunEnd};

/// Fires up to `count` moves that are picked by chance; `movers` has what can move in the net.
pub(crate) fn run_by_chance(
    net: &mut Net,
    who: Who,
    picker: &mut Picker,
    movers: &mut CountedRow,
    count: u64,
) -> RunEnd
    requires movers { MarksReady net.old.wiring net.old.state movers.old }
    ensures ran { RanByChance net.old net.new who count picker.old.state picker.new.state result }
    ensures seed { picker.new.seed ≡ picker.old.seed }
    ensures movers { MarksReady net.new.wiring net.new.state movers.new }
{
    for made in 0..count {
        match pick_move(net, who, picker, movers) {
            Ok(Entry::Fired { .. }) => {}
            Ok(_) => return RunEnd::Rest(made),
            Err(error) => return RunEnd::Refused(made, error),
        }
    }
    RunEnd::Spent(count)
}

// Fires the move that is picked, or notes that no component can move.
fn pick_move(
    net: &mut Net,
    who: Who,
    picker: &mut Picker,
    movers: &mut CountedRow,
) -> Result<Entry, NetError>
    requires movers { MarksReady net.old.wiring net.old.state movers.old }
    ensures picked { IfOk result (IsPickedEntry net.old who picker.old.state picker.new.state) }
    ensures adds { IfOk result (λ entry. Adds net.old entry net.new) }
    ensures cause { IfErr result (RefusesEntry net.old) }
    ensures err { OnErr result (net.new ≡ net.old) }
    ensures stays { OnErr result (picker.new.state ≡ picker.old.state) }
    ensures seed { picker.new.seed ≡ picker.old.seed }
    ensures movers { MarksReady net.new.wiring net.new.state movers.new }
{
    let mut ahead = *picker;
    let Some(comp) = pick_comp(movers, &mut ahead) else {
        return net.step(who, 1);
    };
    let port = pick_port(net, comp, &mut ahead);
    let entry = net.fire_move(who, comp, port)?;
    look_behind(net, entry, movers);
    *picker = ahead;
    Ok(entry)
}

// One of the components that can move, if there is one.
fn pick_comp(movers: &CountedRow, picker: &mut Picker) -> Option<u32>
    ensures comp { IfSome result (λ comp. (n : ℕ) × HasMembers (IsMarked movers.now) n
        × IsPlace (IsMarked movers.now) (drawn picker.old.state % n) comp) }
    ensures none { IfNone result ((comp : ℕ) → IsMarked movers.now comp → ⊥) }
    ensures state { IfSome result (λ _. picker.new.state ≡ after picker.old.state) }
    ensures seed { picker.new.seed ≡ picker.old.seed }
{
    let count = movers.count();
    if count == 0 {
        return None;
    }
    let place = picker.pick(count);
    movers.nth(place)
}

// One of the ports at which a component can move.
fn pick_port(net: &Net, comp: u32, picker: &mut Picker) -> u32
    requires can { CanStep net.now.wiring.sites net.now.state comp }
    ensures port { (n : ℕ) × HasMembers (StepsAt net.now.wiring.sites net.now.state comp) n
        × IsPlace (StepsAt net.now.wiring.sites net.now.state comp) (drawn picker.old.state % n) result }
    ensures state { picker.new.state ≡ after picker.old.state }
    ensures seed { picker.new.seed ≡ picker.old.seed }
{
    let ports = port_count(net.core(), comp);
    let count = count_ports(net, comp, ports);
    let place = picker.pick(count);
    port_with(net, comp, ports, place, count)
}

// At how many of its ports a component can move.
fn count_ports(net: &Net, comp: u32, ports: u32) -> u32
    requires ports { ports ≡ length (site_at net.now.wiring.sites comp).chans }
    requires can { CanStep net.now.wiring.sites net.now.state comp }
    ensures count { HasMembers (StepsAt net.now.wiring.sites net.now.state comp) result }
    ensures some { 0 < result }
{
    let mut count = 0u32;
    for place in 0..ports {
        if net.can_fire(comp, place + 1) {
            count += 1;
        }
    }
    count
}

// Of so many ports at which a component can move the one with so many before it.
fn port_with(net: &Net, comp: u32, ports: u32, place: u32, count: u32) -> u32
    requires ports { ports ≡ length (site_at net.now.wiring.sites comp).chans }
    requires count { HasMembers (StepsAt net.now.wiring.sites net.now.state comp) count }
    requires within { place < count }
    ensures { IsPlace (StepsAt net.now.wiring.sites net.now.state comp) place result }
{
    let mut before = 0u32;
    for number in 0..ports {
        if net.can_fire(comp, number + 1) {
            if before == place {
                return number + 1;
            }
            before += 1;
        }
    }
    unreachable!()
}
