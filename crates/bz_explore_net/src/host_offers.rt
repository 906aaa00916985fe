//! The host words that would be answered.

ghost use Rattle.std.specs.Prelude.{◌≡◌, ◌<◌, ◌≤◌, ◌+◌, ◌-◌, IfOk};
ghost use Rattle.bz_model.specs.Hosts.{port_is_passive};
ghost use Rattle.bz_net.specs.Answering.{would_answer};
ghost use Rattle.bz_explore_net.specs.HostOffers.{HostOffers, HostOffersUpTo, IsSoleAnswer, begins, ends};

use bz_model::{Reply, Verb};
use bz_net::Core;
use std::alloc::{AllocError, Global};

/// A word that the host may give at an external port.
#[derive(Clone, Copy, PartialEq, Eq)]
pub struct HostOffer {
    pub verb: Verb,
    pub port: u32,
}

/// The words that would be answered with `done` or a value, by their ports.
pub fn answered_words(alloc: Global, net: &Core) -> Result<Vec<HostOffer>, AllocError>
    ensures { IfOk result (λ v. HostOffers net.now.wiring net.now.state v.items) }
{
    let mut offers = Vec::new(alloc);
    for (place, port) in net.names().ports().iter().enumerate() {
        add_word(net, place as u32 + 1, port.passive, &mut offers)?;
    }
    Ok(offers)
}

// The word that would be answered at a port, behind those of the ports before it.
fn add_word(
    net: &Core,
    port: u32,
    passive: bool,
    offers: &mut Vec<HostOffer>,
) -> Result<(), AllocError>
    requires from { 0 < port }
    requires sense { passive ≡ port_is_passive net.now.wiring.ports port }
    requires before { HostOffersUpTo net.now.wiring net.now.state (port - 1) offers.old.items }
    ensures { IfOk result (λ _. HostOffersUpTo net.now.wiring net.now.state port offers.new.items) }
{
    match answered_at(net, port, passive) {
        None => Ok(()),
        Some(verb) => {
            offers.push(HostOffer { verb, port })?;
            Ok(())
        }
    }
}

// The word that would be answered at a port of this sense: there is one at most.
fn answered_at(net: &Core, port: u32, passive: bool) -> Option<Verb>
    ensures { IsSoleAnswer net.now.state port passive result }
{
    if would_answer(net, begins(passive), port) {
        return Some(begins(passive));
    }
    if would_answer(net, ends(passive), port) {
        return Some(ends(passive));
    }
    None
}

// Whether a word at a port would be replied to by none of `Busy`, `NotYet` and `NotTaken`.
fn would_answer(net: &Core, verb: Verb, port: u32) -> bool
    ensures { result ≡ would_answer net.now.state verb port }
{
    match net.reply(verb, port) {
        Reply::Busy(_) | Reply::NotYet | Reply::NotTaken(_) => false,
        Reply::Done | Reply::Value(_) | Reply::Watched(_) => true,
    }
}

fn begins(passive: bool) -> Verb
    ensures { result ≡ begins passive }
{
    if passive { Verb::Offer } else { Verb::Accept }
}

fn ends(passive: bool) -> Verb
    ensures { result ≡ ends passive }
{
    if passive { Verb::Collect } else { Verb::Answer }
}
