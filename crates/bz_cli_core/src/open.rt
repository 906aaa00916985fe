//! From a netlist to a net at its opening, and to what is played on it.

ghost use Rattle.std.specs.Prelude.{◌≤◌, ◌<◌, IfOk, IfErr};
ghost use Rattle.std.specs.Option.{option_copied};
ghost use Rattle.bz_cli_core.specs.Opening.{Opens, PlaysText};
ghost use Rattle.bz_cli_input.specs.Opening.{RefusesNet};

use bz_cli_input::{Fault, flat_of};
use bz_model::{NetError, Who};
use bz_net::{Answer, Event, Net, play_events};
use std::alloc::Global;

/// The net that the text denotes, at its opening, with a journal of at most `limit` entries.
pub fn open_net(alloc: Global, asked: Option<&[u8]>, limit: u32, text: &[u8]) -> Result<Net, Fault>
    requires least { 0 < limit }
    requires most { limit ≤ 16777216 }
    ensures ok { IfOk result (Opens text.now (option_copied asked.entry) limit) }
    ensures err { IfErr result (RefusesNet text.now (option_copied asked.entry)) }
{
    let flat = flat_of(alloc, asked, text)?;
    match Net::open(alloc, flat, limit) {
        Ok(net) => Ok(net),
        Err(_) => Err(Fault::Memory),
    }
}

/// A net on which events were played, and what each was answered, or why it was refused.
#[derive(Drop)]
pub struct TextPlay {
    pub net: Net,
    pub answers: Vec<Result<Answer, NetError>>,
}

/// Plays events of anybody, one after another, on the net that the text denotes, from its opening, with a journal of at most
/// `limit` entries. An event that is refused ends nothing. No command calls it: it is README's sentence from what a user has.
pub fn play_text(
    alloc: Global,
    text: &[u8],
    asked: Option<&[u8]>,
    limit: u32,
    events: &[(Who, Event<'_>)],
) -> Result<TextPlay, Fault>
    requires least { 0 < limit }
    requires most { limit ≤ 16777216 }
    ensures ok { IfOk result (PlaysText text.now (option_copied asked.entry) limit events.now) }
    ensures err { IfErr result (RefusesNet text.now (option_copied asked.entry)) }
{
    let mut net = open_net(alloc, asked, limit, text)?;
    let Ok(answers) = play_events(alloc, &mut net, events) else {
        return Err(Fault::Memory);
    };
    Ok(TextPlay { net, answers })
}
