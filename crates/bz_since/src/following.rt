//! Entries played on a net, from one place of a list to another.

ghost use Rattle.std.specs.Prelude.{◌≤◌, length, OnOk};
ghost use Rattle.bz_model.specs.declared.event.Entry.{Entry};
ghost use Rattle.bz_since.specs.Halving.{Goes, LeadsOn};

use bz_model::{Entry, NetError};
use bz_net::Net;

/// Plays the entries from one place of a list to another.
pub(crate) fn play(net: &mut Net, entries: &[Entry], from: usize, to: usize) -> Result<(), NetError>
    requires ordered { from ≤ to }
    requires within { to ≤ length entries.now }
    ensures { OnOk result (LeadsOn entries.now from to net.old net.new) }
{
    for place in from..to {
        follow(net, entries[place])?;
    }
    Ok(())
}

// Makes the event that gives this entry, whatever port it names for a firing.
fn follow(net: &mut Net, entry: Entry) -> Result<(), NetError>
    ensures { OnOk result (Goes net.old entry net.new) }
{
    match entry {
        Entry::Fired {
            who,
            comp,
            chan,
            mv,
            ..
        } => match net.port_at(comp, chan, mv) {
            None => Err(NetError::NotEnabled),
            Some(port) => match net.fire_move(who, comp, port) {
                Ok(_) => Ok(()),
                Err(error) => Err(error),
            },
        },
        Entry::Host {
            who,
            verb,
            port,
            value,
            ..
        } => {
            if port == 0 || port as usize > net.names().ports().len() {
                return Err(NetError::UnknownPort);
            }
            match net.host_at(who, verb, port, value) {
                Ok(_) => Ok(()),
                Err(error) => Err(error),
            }
        }
        Entry::Rested { who } => match net.rest(who) {
            Ok(_) => Ok(()),
            Err(error) => Err(error),
        },
    }
}
