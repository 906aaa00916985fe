//! What passed at each port.

ghost use Rattle.std.specs.Prelude.{◌≡◌, ◌++◌, [], ◌∷◌, List, length, IfOk, MatchOption, if◌then◌else◌};
ghost use Rattle.bz_model.specs.declared.event.Entry.{Entry};
ghost use Rattle.bz_model.specs.declared.event.Who.{Who};
ghost use Rattle.bz_bench.specs.Streams.{begins, carried, ends};
ghost use Rattle.bz_bench.specs.Tallies.{Tells};

use bz_model::{Entry, Reply, Value, Verb};
use std::alloc::{AllocError, Global};

/// The handshakes that were begun at a port, and those that were ended, each with the value that came or went by that word.
#[derive(Drop)]
pub struct Tally {
    pub begun: Vec<Option<Value>>,
    pub ended: Vec<Option<Value>>,
}

/// What passed at each of so many ports, by these entries.
pub fn tallies_of(alloc: Global, ports: usize, entries: &[Entry]) -> Result<Vec<Tally>, AllocError>
    ensures count { IfOk result (λ tallies. length tallies.items ≡ ports) }
    ensures told { IfOk result (λ tallies. Tells entries.now tallies.items) }
{
    let mut tallies = no_tallies(alloc, ports)?;
    for entry in entries {
        note(&mut tallies, *entry)?;
    }
    Ok(tallies)
}

/// Those of no entries.
#[tactic(auto, using(crate::proofs::Telling::told_none, crate::proofs::Telling::empty_push))]
pub fn no_tallies(alloc: Global, ports: usize) -> Result<Vec<Tally>, AllocError>
    ensures count { IfOk result (λ tallies. length tallies.items ≡ ports) }
    ensures told { IfOk result (λ tallies. Tells [] tallies.items) }
{
    let mut tallies = Vec::new(alloc);
    for place in 0..ports {
        let begun = Vec::new(alloc);
        let ended = Vec::new(alloc);
        tallies.push(Tally { begun, ended })?;
    }
    Ok(tallies)
}

/// Adds what an entry shows.
pub fn note(tallies: &mut Vec<Tally>, entry: Entry) -> Result<(), AllocError>
    ensures told { IfOk result (λ _. (entries : List Entry)
        → Tells entries tallies.old.items → Tells (entries ++ entry ∷ []) tallies.new.items) }
    ensures count { length tallies.new.items ≡ length tallies.old.items }
{
    match entry {
        Entry::Host {
            verb,
            port,
            value,
            reply,
            ..
        } => note_word(tallies, verb, port, value, reply),
        Entry::Fired { .. } | Entry::Rested { .. } => Ok(()),
    }
}

// Adds a word of the host with its reply.
fn note_word(
    tallies: &mut Vec<Tally>,
    verb: Verb,
    port: u32,
    value: Option<Value>,
    reply: Reply,
) -> Result<(), AllocError>
    ensures told { IfOk result (λ _. (who : Who) (entries : List Entry)
        → Tells entries tallies.old.items → Tells (entries ++ Entry.Host who verb port value reply ∷ []) tallies.new.items) }
    ensures count { length tallies.new.items ≡ length tallies.old.items }
{
    let place = port as usize;
    if place == 0 {
        return Ok(());
    }
    if place > tallies.len() {
        return Ok(());
    }
    match carried(value, reply) {
        Some(came) => {
            tallies[place - 1].note(verb, came)?;
            Ok(())
        }
        None => Ok(()),
    }
}

// What came or went by a word, where it was done.
fn carried(value: Option<Value>, reply: Reply) -> Option<Option<Value>>
    ensures { MatchOption result (carried value reply ≡ []) (λ came. carried value reply ≡ came ∷ []) }
{
    match reply {
        Reply::Done => Some(value),
        Reply::Value(came) => Some(Some(came)),
        Reply::NotYet | Reply::Busy(_) | Reply::NotTaken(_) | Reply::Watched(_) => None,
    }
}

impl Tally {
    // Adds what came or went by a word.
    fn note(&mut self, verb: Verb, came: Option<Value>) -> Result<(), AllocError>
        ensures begun { IfOk result (λ _. self.new.begun.items ≡ self.old.begun.items ++ (if begins verb then came ∷ [] else [])) }
        ensures ended { IfOk result (λ _. self.new.ended.items ≡ self.old.ended.items ++ (if ends verb then came ∷ [] else [])) }
    {
        match verb {
            Verb::Offer | Verb::Accept => self.begun.push(came)?,
            Verb::Collect | Verb::Answer => self.ended.push(came)?,
            Verb::Watch => {}
        }
        Ok(())
    }
}
