//! The words of a trace and of a list: each stands here alone.

ghost use Rattle.std.specs.Prelude.{◌≡◌, ◌++◌, decimal};
ghost use Rattle.bz_model.specs.Traces.{move_text, phase_text, reply_text, value_text, verb_text, who_text};
ghost use Rattle.bz_model.specs.Words.{carried_text, chan_kind_text};

use crate::channel::{Chan, ChanKind, Move, Phase, Value};
use crate::event::{Reply, Verb, Who};
use std::fmt;

impl Move {
    /// The word of a move, as `ask`.
    pub fn word(self) -> &'static str
        ensures { result.now ≡ move_text self }
    {
        match self {
            Move::Ask => "ask",
            Move::Take => "take",
            Move::Reply => "reply",
            Move::Got => "got",
        }
    }
}

impl Verb {
    /// The word of a verb, as `offer`.
    pub fn word(self) -> &'static str
        ensures { result.now ≡ verb_text self }
    {
        match self {
            Verb::Offer => "offer",
            Verb::Collect => "collect",
            Verb::Accept => "accept",
            Verb::Answer => "answer",
            Verb::Watch => "watch",
        }
    }
}

impl Phase {
    /// The word of a phase, and the value that a text tells behind it.
    pub fn parts(self) -> (&'static str, Option<Value>)
        ensures { phase_text self ≡ result.0.now ++ value_text result.1 }
    {
        match self {
            Phase::Idle => ("idle", None),
            Phase::Asked(value) => ("asked", value),
            Phase::Taken => ("taken", None),
            Phase::Replied(value) => ("replied", value),
            Phase::Broken => ("broken", None),
        }
    }
}

impl Reply {
    /// The word of a reply, that of the phase behind it, and the value behind both.
    pub fn parts(self) -> (&'static str, &'static str, Option<Value>)
        ensures { reply_text self ≡ result.0.now ++ (result.1.now ++ value_text result.2) }
    {
        match self {
            Reply::Done => ("done", "", None),
            Reply::Value(v) => ("value", "", Some(v)),
            Reply::NotYet => ("not-yet", "", None),
            Reply::Busy(phase) => {
                let (word, value) = phase.parts();
                ("busy ", word, value)
            }
            Reply::NotTaken(phase) => {
                let (word, value) = phase.parts();
                ("not-taken ", word, value)
            }
            Reply::Watched(phase) => {
                let (word, value) = phase.parts();
                ("", word, value)
            }
        }
    }
}

impl Who {
    /// The letter and the number of a host or a worker.
    pub fn parts(self) -> (&'static str, u8)
        ensures { who_text self ≡ result.0.now ++ decimal result.1 }
    {
        match self {
            Who::Host(number) => ("h", number),
            Who::Worker(number) => ("w", number),
        }
    }
}

impl ChanKind {
    /// The word of a kind of channel, as `push`.
    pub fn word(self) -> &'static str
        ensures { result.now ≡ chan_kind_text self }
    {
        match self {
            ChanKind::Sync => "sync",
            ChanKind::Push => "push",
            ChanKind::Pull => "pull",
        }
    }
}

impl fmt::Display for Move {
    ghost use Rattle.std.specs.Prelude.{Some};
    ghost use Rattle.bz_model.specs.Traces.{move_text};

    ghost output = { λ mv. Some (move_text mv) };

    fn fmt<W: fmt::Write>(&self, f: &mut fmt::Formatter<W>) -> fmt::Result {
        f.write_str(self.word())
    }
}

impl fmt::Display for Verb {
    ghost use Rattle.std.specs.Prelude.{Some};
    ghost use Rattle.bz_model.specs.Traces.{verb_text};

    ghost output = { λ verb. Some (verb_text verb) };

    fn fmt<W: fmt::Write>(&self, f: &mut fmt::Formatter<W>) -> fmt::Result {
        f.write_str(self.word())
    }
}

impl fmt::Display for Who {
    ghost use Rattle.std.specs.Prelude.{Some};
    ghost use Rattle.bz_model.specs.Traces.{who_text};

    ghost output = { λ who. Some (who_text who) };

    fn fmt<W: fmt::Write>(&self, f: &mut fmt::Formatter<W>) -> fmt::Result {
        let (letter, number) = self.parts();
        write!(f, "{letter}{number}")
    }
}

impl fmt::Display for Phase {
    ghost use Rattle.std.specs.Prelude.{Some};
    ghost use Rattle.bz_model.specs.Traces.{phase_text};

    ghost output = { λ phase. Some (phase_text phase) };

    fn fmt<W: fmt::Write>(&self, f: &mut fmt::Formatter<W>) -> fmt::Result {
        match self.parts() {
            (word, None) => f.write_str(word),
            (word, Some(value)) => write!(f, "{word} {value}"),
        }
    }
}

impl fmt::Display for Reply {
    ghost use Rattle.std.specs.Prelude.{Some};
    ghost use Rattle.bz_model.specs.Traces.{reply_text};

    ghost output = { λ reply. Some (reply_text reply) };

    fn fmt<W: fmt::Write>(&self, f: &mut fmt::Formatter<W>) -> fmt::Result {
        match self.parts() {
            (word, phase, None) => write!(f, "{word}{phase}"),
            (word, phase, Some(value)) => write!(f, "{word}{phase} {value}"),
        }
    }
}

impl fmt::Display for ChanKind {
    ghost use Rattle.std.specs.Prelude.{Some};
    ghost use Rattle.bz_model.specs.Words.{chan_kind_text};

    ghost output = { λ kind. Some (chan_kind_text kind) };

    fn fmt<W: fmt::Write>(&self, f: &mut fmt::Formatter<W>) -> fmt::Result {
        f.write_str(self.word())
    }
}

/// The kind of a channel, and its width where it has one: `sync`, `push 8`.
impl fmt::Display for Chan {
    ghost use Rattle.std.specs.Prelude.{Some};
    ghost use Rattle.bz_model.specs.Words.{carried_text};

    ghost output = { λ chan. Some (carried_text chan.kind chan.width) };

    fn fmt<W: fmt::Write>(&self, f: &mut fmt::Formatter<W>) -> fmt::Result {
        let Chan { kind, width } = *self;
        match kind {
            ChanKind::Sync => f.write_str(kind.word()),
            ChanKind::Push | ChanKind::Pull => write!(f, "{kind} {width}"),
        }
    }
}
