//! What a component waits for at one of its ports.

ghost use Rattle.std.specs.Prelude.{◌≡◌, ◌≤◌, length, MatchOption};
ghost use Rattle.bz_model.specs.Nets.{chan_at};
ghost use Rattle.bz_waits.specs.Adding.{next_place};
ghost use Rattle.bz_waits.specs.Waiting.{IsAwaited, IsDue, IsLink, IsPlace, IsStuck, IsWait, IsWhom, first_move};

use crate::due::is_idle;
use crate::sites::{chan_at, other_end};
use bz_model::{Move, Phase};
use bz_net::Core;

/// What a component that can't move waits for at one of its ports, or that it has halted. Components and channels count from 1.
#[derive(Clone, Copy, PartialEq, Eq)]
pub struct Wait {
    pub comp: u32,
    /// The channel on which something has to come, or on which a component that has halted owes a reply.
    pub chan: u32,
    pub whom: Whom,
    /// The component that it waits for, 0 where it waits for the host or has halted.
    pub other: u32,
    /// The move that has to come first on the channel.
    pub mv: Move,
    pub place: Place,
}

/// For whom a component waits.
#[derive(Clone, Copy, PartialEq, Eq)]
pub enum Whom {
    /// For nobody: it has halted.
    Nobody,
    Host,
    /// For a component that is idle: it can't move, waits for no reply and owes none.
    Idle,
    /// For one that is not.
    Busy,
}

/// How what a component waits for goes with what else it waits for.
#[derive(Clone, Copy, PartialEq, Eq)]
pub enum Place {
    /// It has to come in any case.
    Each,
    /// The first of several of which one is enough.
    First,
    /// Another one of these.
    Other,
}

impl Place {
    /// The place of the next port at which the same component waits.
    pub(crate) fn next(self) -> Place
        ensures { result ≡ next_place self }
    {
        match self {
            Place::Each => Place::Each,
            _ => Place::Other,
        }
    }
}

impl Wait {
    /// That of a component which has halted, and owes a reply on this channel.
    pub(crate) fn halted(comp: u32, chan: u32) -> Wait
        ensures { result ≡ record {
          comp = comp;
          chan = chan;
          whom = Whom.Nobody;
          other = 0;
          mv = Move.Reply;
          place = Place.Each;
        } }
    {
        Wait {
            comp,
            chan,
            whom: Whom::Nobody,
            other: 0,
            mv: Move::Reply,
            place: Place::Each,
        }
    }

    /// That of a component at a port where this move is due.
    pub(crate) fn at_port(core: &Core, comp: u32, port: u32, due: Move, place: Place) -> Wait
        requires stuck { IsStuck core.now.wiring.sites core.now.state comp }
        requires due { IsDue core.now.wiring.sites core.now.state comp due port }
        requires awaited { IsAwaited core.now.wiring.sites core.now.state comp due }
        requires place { IsPlace core.now.wiring.sites core.now.state comp due place }
        ensures wait { IsWait core.now.wiring.sites core.now.state result }
        ensures comp { result.comp ≡ comp }
        ensures chan { result.chan ≡ chan_at core.now.wiring.sites comp port }
    {
        let chan = chan_at(core, comp, port);
        let other = other_end(core, comp, port);
        Wait {
            comp,
            chan,
            whom: whom_of(core, other),
            other,
            mv: first_move(due, core.phase(chan)),
            place,
        }
    }

    /// Whom it waits for in any case, where that is a component that waits or can move itself.
    pub fn link(self) -> Option<u32>
        ensures { MatchOption result (IsLink self → ⊥) (λ other. IsLink self × (self.other ≡ other)) }
    {
        match (self.whom, self.place) {
            (Whom::Busy, Place::Each) => Some(self.other),
            _ => None,
        }
    }
}

// Whom a component waits for, by the number of who stands at the other end.
fn whom_of(core: &Core, other: u32) -> Whom
    requires { other ≤ length core.now.wiring.sites }
    ensures { IsWhom core.now.wiring.sites core.now.state other result }
{
    if other == 0 {
        Whom::Host
    } else if is_idle(core, other) {
        Whom::Idle
    } else {
        Whom::Busy
    }
}

/// What has to come first where a move is due on a channel in this phase: a deed of who stands at the other end.
pub fn first_move(due: Move, phase: Phase) -> Move
    ensures { result ≡ first_move due phase }
{
    match (due, phase) {
        (Move::Got, Phase::Asked(_)) => Move::Take,
        (Move::Got, _) => Move::Reply,
        _ => Move::Ask,
    }
}
