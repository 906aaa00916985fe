//! Commands that a session plays in turn.

ghost use Rattle.std.specs.Prelude.{◌≡◌, length};
ghost use Rattle.bz_locked.specs.Parts.{Stays};
ghost use Rattle.bz_pool.specs.Playing.{HasEnded, HasWorked, Played, NamesWord};

use bz_locked::{NetLedger, Session, SharedNet, WaitReply};
use bz_model::HostCmd;
use bz_words::SessionError;
use std::sync::Wait;
use std::sync::ledger::Ledger;

/// How a session or a worker ended. The number is that of the session's command, from 1; it is 0 for a worker.
#[derive(Clone, Copy, Debug, PartialEq, Eq)]
pub enum End {
    Done,
    Resting(u64),
    Spent(u64),
    Stopped(u64),
    Refused(u64, SessionError),
}

/// Plays the commands in turn, each by a wait for its answer, until one is not answered. The session runs no more afterwards.
pub fn play<L: NetLedger, R: Wait>(
    shared: &SharedNet<L>,
    rt: &R,
    session: &mut Session,
    words: &[HostCmd],
) -> End
    requires { session.old.seat.table ≡ shared.now.table }
    ensures who { (session.new.who ≡ session.old.who) × Stays session.old.seat session.new.seat }
    ensures record { Played L.terms session.old.seat.saw session.new.seat.saw session.old.who words.now result session.old.own session.new.own }
    ensures word { NamesWord result (length words.now) }
    ensures stood { HasEnded L.terms.wiring session.old.who words.now session.old.seat.saw session.new.seat.saw }
{
    let end = play_words(shared, rt, session, words);
    shared.end(rt, session);
    end
}

fn play_words<L: NetLedger, R: Wait>(
    shared: &SharedNet<L>,
    rt: &R,
    session: &mut Session,
    words: &[HostCmd],
) -> End
    requires { session.old.seat.table ≡ shared.now.table }
    ensures who { (session.new.who ≡ session.old.who) × Stays session.old.seat session.new.seat }
    ensures record { Played L.terms session.old.seat.saw session.new.seat.saw session.old.who words.now result session.old.own session.new.own }
    ensures word { NamesWord result (length words.now) }
    ensures stood { HasWorked L.terms.wiring session.old.who words.now session.old.seat.saw session.new.seat.saw }
{
    let mut word = 0;
    for cmd in words {
        word += 1;
        match shared.wait_host(rt, session, cmd) {
            Ok(WaitReply::Answered(_)) => {}
            Ok(WaitReply::Resting) => return End::Resting(word),
            Ok(WaitReply::Spent) => return End::Spent(word),
            Ok(WaitReply::Stopped) => return End::Stopped(word),
            Err(error) => return End::Refused(word, SessionError::Event(error)),
        }
    }
    End::Done
}
