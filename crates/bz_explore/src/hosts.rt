//! Hosts that stand by at ports: where a run comes to rest, the first of them that can go on gives its next word. A host is looked
//! at again once something has moved at its port: so a word takes no longer the more hosts there are.
//!
//! A request is accepted only while a value is left for it, and a handshake that was begun is ended: so none stays open where the
//! values are out. What a host gave is known by the places of its words in the journal. So what is undone it has again.

use crate::answer::Answer;
use bz_explore_net::{CountedRow, chan_of};
use bz_model::{HostCmd, NetError, Value, Verb};
use bz_net::Net;
use bz_text::Text;
use bz_view::Piece;
use std::alloc::{AllocError, Global};

/// What a host that stands by has to give.
#[derive(Drop)]
pub(crate) enum Supply {
    /// A value with each handshake.
    Values(Vec<Value>),
    /// So many handshakes, without a value of its own.
    Handshakes(u64),
    /// As many as there are.
    Always,
}

/// A host that stands by at a port.
#[derive(Drop)]
pub(crate) struct StandBy {
    pub port: u32,
    pub passive: bool,
    /// The word that it gives next, at the port of this name.
    pub word: HostCmd,
    pub supply: Supply,
    /// Where in the journal are the words with which it gave something, or took what came.
    pub given: Vec<usize>,
}

impl StandBy {
    // Forgets the words that are not among so many entries.
    fn forget(&mut self, entries: usize) {
        let count = self.count(entries);
        self.given.truncate(count);
    }

    // How often it gave something by so many entries.
    fn count(&self, entries: usize) -> usize {
        self.given
            .iter()
            .take_while(|place| **place < entries)
            .count()
    }

    // How often it can give something behind so many times, where that is known.
    fn left(&self, count: usize) -> Option<u64> {
        let all = match &self.supply {
            Supply::Values(values) => values.len() as u64,
            Supply::Handshakes(all) => *all,
            Supply::Always => return None,
        };
        Some(all.saturating_sub(count as u64))
    }

    /// Whether it has less to give once it has given something.
    pub fn has_an_end(&self) -> bool {
        self.left(0).is_some()
    }

    /// Makes its next word ready, if it can give one.
    pub fn readies(&mut self, net: &Net) -> bool {
        let (begins, ends) = if self.passive {
            (Verb::Offer, Verb::Collect)
        } else {
            (Verb::Accept, Verb::Answer)
        };
        let verb = if net.would_answer(ends, self.port) {
            ends
        } else {
            begins
        };
        let (count, gives) = (self.given.len(), self.gives_by());
        let needs = verb == begins || verb == gives;
        if !net.would_answer(verb, self.port) || needs && self.left(count) == Some(0) {
            return false;
        }
        self.word.verb = verb;
        self.word.value = match &self.supply {
            Supply::Values(values) if verb == gives => values.get(count).copied(),
            _ => None,
        };
        true
    }

    // The word with which it gives something, or takes what comes.
    fn gives_by(&self) -> Verb {
        match (self.passive, &self.supply) {
            (true, _) => Verb::Offer,
            (false, Supply::Values(_)) => Verb::Answer,
            (false, _) => Verb::Accept,
        }
    }

    /// Has more to give, by so many entries.
    pub fn add(&mut self, supply: Supply, entries: usize) -> Result<(), AllocError> {
        let count = self.count(entries) as u64;
        match supply {
            Supply::Values(more) => {
                if let Supply::Values(had) = &mut self.supply {
                    had.extend_from_slice(&more)?;
                }
            }
            Supply::Handshakes(more) => {
                let had = match &self.supply {
                    Supply::Handshakes(had) => *had,
                    _ => count,
                };
                self.supply = Supply::Handshakes(had.saturating_add(more));
            }
            Supply::Always => self.supply = Supply::Always,
        }
        Ok(())
    }

    /// Notes that it gave its word, at a place of the journal.
    pub fn note(&mut self, place: usize) -> Result<(), NetError> {
        if self.word.verb == self.gives_by() && self.given.push(place).is_err() {
            return Err(NetError::Memory);
        }
        Ok(())
    }

    /// Adds what it has given, and what it has left.
    pub fn put(&self, entries: usize, text: &mut Text) {
        let count = self.count(entries);
        let name = Piece::Called(self.word.port.as_slice());
        let (word, done) = match &self.supply {
            Supply::Values(_) => ("feed", "given"),
            Supply::Handshakes(_) | Supply::Always => ("drain", "taken"),
        };
        text.say("% %", &[Piece::Text(word), name]);
        text.fill(18);
        text.say("% %", &[Piece::Number(count), Piece::Text(done)]);
        if let Some(left) = self.left(count) {
            text.say(", % left", &[Piece::Wide(left.into())]);
        }
        text.put("\n");
    }
}

/// The ports at which something has moved since the hosts there were found waiting.
#[derive(Drop)]
pub(crate) struct MovedPorts {
    ports: CountedRow,
    // How many entries of the journal were looked at.
    seen: usize,
}

impl MovedPorts {
    /// All at which hosts stand by.
    pub fn of(alloc: Global, net: &Net, hosts: &[StandBy]) -> Result<MovedPorts, AllocError> {
        let mut ports = CountedRow::new(alloc, net.names().ports().len().saturating_add(1))?;
        for host in hosts {
            ports.set(host.port as usize, true);
        }
        let seen = net.journal().len();
        Ok(MovedPorts { ports, seen })
    }

    /// The place of the first host that can go on, whose next word is made ready.
    pub fn caller(&mut self, net: &Net, hosts: &mut [StandBy]) -> Option<usize> {
        self.look(net);
        for _ in 0..=self.ports.count() {
            let port = self.ports.nth(0)?;
            let place = place_of(hosts, port);
            if let Some(host) = hosts.get_mut(place) {
                if host.port == port && host.readies(net) {
                    return Some(place);
                }
            }
            self.ports.set(port as usize, false);
        }
        None
    }

    // Takes in what has moved since the last look.
    fn look(&mut self, net: &Net) {
        for entry in net.journal().get(self.seen..).unwrap_or(&[]) {
            if let Some(chan) = chan_of(*entry) {
                self.ports.set(chan as usize, true);
            }
        }
        self.seen = net.journal().len();
    }
}

/// Where the host of a port stands among those that stand by, in the order of their ports, or where it would.
pub(crate) fn place_of(hosts: &[StandBy], port: u32) -> usize {
    hosts.partition_point(|host| host.port < port)
}

/// Has hosts forget the words that are not among so many entries: something else has moved behind them.
pub(crate) fn forget(hosts: &mut [StandBy], entries: usize) {
    for host in hosts.iter_mut() {
        host.forget(entries);
    }
}

/// Adds the hosts that stand by.
pub(crate) fn put_hosts(hosts: &[StandBy], entries: usize, answer: &mut Answer) {
    if hosts.is_empty() {
        answer.text.put("no host stands by\n");
    }
    for host in hosts {
        host.put(entries, &mut answer.text);
    }
}
