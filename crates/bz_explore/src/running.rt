//! Runs in turn: up to rest, up to a number of firings, or until something has moved, and on with the hosts that stand by.
//!
//! A run whose firings nobody has bounded may never end. So it stops where it goes round: where the net is in a state in which it
//! was before, the next run would look from the same component on, and no host has given anything since of which it has less left.
//! Then all goes on as it did from that moment on.

use crate::answer::{Answer, add};
use crate::commands::Call;
use crate::feeding::port_named;
use crate::hosts::{MovedPorts, StandBy, forget};
use crate::session::Session;
use crate::things::found;
use bz_explore_net::{Rounds, Stepping};
use bz_model::{Entry, NetError, wide_count_of};
use bz_net::RunEnd;
use bz_view::{Seen, Thing};
use bz_words::read_name;
use std::alloc::{AllocError, Global};

/// How far a run is to go.
#[derive(Clone, Copy)]
pub(crate) struct Goal<'g> {
    /// Where it stops once something has moved.
    pub things: &'g [Thing],
    /// The most firings.
    pub most: u64,
    /// Whether it goes on without end: at rest by the hosts that stand by, and until it goes round.
    pub is_endless: bool,
}

/// How a run ended.
#[derive(Clone, Copy)]
pub(crate) enum RanTo {
    /// At rest, or after the most firings.
    End,
    /// Once something had moved here.
    Thing(Thing),
    /// Where all went on as it did when the journal had so many entries.
    Again(usize),
    /// Where an entry was refused.
    Refused(NetError),
}

/// How far a run is.
#[derive(Clone, Copy)]
enum Stage {
    Moves,
    Rests,
    Ended(RanTo),
}

/// Where a run to a thing stops: that there is no such thing is told.
pub(crate) fn things_asked(session: &mut Session<'_>, call: Call<'_>) -> Vec<Thing> {
    let seen = Seen::of(session.stepping.net().core(), session.survey);
    let word = call.first.unwrap_or("");
    match port_called(seen, word, &mut session.answer) {
        None => found(seen, call, &mut session.answer),
        Some(port) => {
            let mut things = Vec::new(session.answer.text.alloc());
            add(&mut things, Thing::Chan(port), &mut session.answer.text);
            things
        }
    }
}

// The external port that a word names, which is no component's number.
fn port_called(seen: Seen<'_>, word: &str, answer: &mut Answer) -> Option<u32> {
    if wide_count_of(word).is_some() {
        return None;
    }
    match read_name(answer.text.alloc(), word.as_bytes()) {
        Ok(Some(name)) => Some(port_named(seen.net.names(), name.as_slice())?.port),
        Ok(None) => None,
        Err(_) => {
            answer.text.lose();
            None
        }
    }
}

/// Runs on, as one command: how often something fired, and how the run ended.
pub(crate) fn run_up_to(
    stepping: &mut Stepping,
    hosts: &mut [StandBy],
    goal: Goal<'_>,
    typed: &[u8],
    answer: &mut Answer,
) -> (u64, RanTo) {
    let mut fired = 0;
    let mut rounds = Rounds::new();
    let before = stepping.net().journal().len();
    let alloc = answer.text.alloc();
    let Ok(mut moved) = MovedPorts::of(alloc, stepping.net(), hosts) else {
        return (0, RanTo::Refused(NetError::Memory));
    };
    let first = stepping.run(alloc, typed, goal.step(&rounds));
    if stepping.net().journal().len() > before {
        forget(hosts, before);
    }
    let mut stage = match first {
        Ok(end) => goal.stage_after(alloc, stepping, end, &mut fired, &mut rounds),
        Err(AllocError) => Stage::Ended(RanTo::Refused(NetError::Memory)),
    };
    for _ in 0..u64::MAX {
        stage = match stage {
            Stage::Moves => {
                let end = stepping.run_on(goal.step(&rounds));
                goal.stage_after(alloc, stepping, end, &mut fired, &mut rounds)
            }
            Stage::Rests => goal.stage_at_rest(alloc, stepping, hosts, &mut moved, &mut rounds),
            Stage::Ended(end) => return (fired, end),
        };
    }
    (fired, RanTo::End)
}

impl Goal<'_> {
    // How many firings are made at once.
    fn step(self, rounds: &Rounds) -> u64 {
        if !self.things.is_empty() {
            self.most.min(1)
        } else if self.is_endless {
            rounds.stride()
        } else {
            self.most
        }
    }

    // How far the run is once some more have fired.
    fn stage_after(
        self,
        alloc: Global,
        stepping: &Stepping,
        end: RunEnd,
        fired: &mut u64,
        rounds: &mut Rounds,
    ) -> Stage {
        match end {
            RunEnd::Rest(more) => {
                *fired = fired.saturating_add(more);
                Stage::Rests
            }
            RunEnd::Refused(more, error) => {
                *fired = fired.saturating_add(more);
                Stage::Ended(RanTo::Refused(error))
            }
            RunEnd::Spent(0) => Stage::Ended(RanTo::End),
            RunEnd::Spent(more) => {
                *fired = fired.saturating_add(more);
                match self.reached(stepping) {
                    None if self.is_endless => stage_of(alloc, stepping, rounds),
                    None if *fired < self.most => Stage::Moves,
                    None => Stage::Ended(RanTo::End),
                    Some(thing) => Stage::Ended(RanTo::Thing(thing)),
                }
            }
        }
    }

    // How far the run is once the net has come to rest, and a host that stands by has gone on.
    fn stage_at_rest(
        self,
        alloc: Global,
        stepping: &mut Stepping,
        hosts: &mut [StandBy],
        moved: &mut MovedPorts,
        rounds: &mut Rounds,
    ) -> Stage {
        if !self.is_endless {
            return Stage::Ended(RanTo::End);
        }
        match gives(stepping, hosts, moved, rounds) {
            Ok(false) => Stage::Ended(RanTo::End),
            Ok(true) => match self.reached(stepping) {
                None => stage_of(alloc, stepping, rounds),
                Some(thing) => Stage::Ended(RanTo::Thing(thing)),
            },
            Err(error) => Stage::Ended(RanTo::Refused(error)),
        }
    }

    // Where it stops that has just moved.
    fn reached(self, stepping: &Stepping) -> Option<Thing> {
        let last = stepping.net().journal().last()?;
        self.things
            .iter()
            .copied()
            .find(|thing| moves_at(*last, *thing))
    }
}

// How far a run is: it goes on unless it goes round.
fn stage_of(alloc: Global, stepping: &Stepping, rounds: &mut Rounds) -> Stage {
    match rounds.look(alloc, stepping) {
        None => Stage::Moves,
        Some(entries) => Stage::Ended(RanTo::Again(entries)),
    }
}

// Whether an entry is a move of a component, or one on a channel.
fn moves_at(entry: Entry, thing: Thing) -> bool {
    match (entry, thing) {
        (Entry::Fired { comp, .. }, Thing::Comp(at)) => comp == at,
        (Entry::Fired { chan, .. }, Thing::Chan(at)) => chan == at,
        (Entry::Host { port, .. }, Thing::Chan(at)) => port == at,
        _ => false,
    }
}

// Gives the next word of the first host that can go on: whether there was one.
fn gives(
    stepping: &mut Stepping,
    hosts: &mut [StandBy],
    moved: &mut MovedPorts,
    rounds: &mut Rounds,
) -> Result<bool, NetError> {
    let place = stepping.net().journal().len();
    let Some(caller) = moved.caller(stepping.net(), hosts) else {
        return Ok(false);
    };
    let Some(host) = hosts.get_mut(caller) else {
        return Ok(false);
    };
    stepping.command_on(&host.word)?;
    host.note(place)?;
    if host.has_an_end() {
        rounds.forget();
    }
    Ok(true)
}
