//! Whether all records and shares agree with a journal, by one pass over it.

ghost use Rattle.std.specs.Prelude.{◌≡◌, ◌∷◌, ◌++◌, ◌<◌, ◌≤◌, ◌^◌, [], List, ℕ, length, true, take};
ghost use Rattle.std.specs.List.{All};
ghost use Rattle.bz_model.specs.declared.event.Entry.{Entry};
ghost use Rattle.bz_locked.specs.Counting.{HaveMet, HaveFired};
ghost use Rattle.bz_locked.specs.Closing.{RecordAgrees, ShareAgrees};

use crate::comparing::{is_at, is_fired, who_of};
use crate::ledger::NetLedger;
use crate::parts::{Session, Worker};
use bz_model::{Entry, Who};
use std::sync::ledger::Ledger;

// A number for each number that a session or a worker can have.
type Counts = [usize; 256];

// Whether the record at the place of the entry's session goes on with the entry, which is counted then.
fn goes_on(sessions: &[Session], met: &mut Counts, entry: &Entry) -> bool
    ensures { result ≡ true → (read : List Entry) → HaveMet sessions.now read met.old → HaveMet sessions.now (read ++ entry.now ∷ []) met.new }
{
    let Who::Host(number) = who_of(entry) else {
        return true;
    };
    let number = number as usize;
    if number == 0 {
        return true;
    }
    if number > sessions.len() {
        return true;
    }
    let session = &sessions[number - 1];
    let at = met[number];
    if at >= session.own.len() {
        return false;
    }
    if !is_at(&session.own, at, entry) {
        return false;
    }
    met[number] = at + 1;
    true
}

// Counts a firing of a worker.
fn count_firing(fired: &mut Counts, entry: &Entry)
    ensures { (read : List Entry) → length read < 2 ^ 63 → HaveFired read fired.old → HaveFired (read ++ entry.now ∷ []) fired.new }
{
    if let Who::Worker(number) = who_of(entry) {
        if is_fired(entry) {
            let number = number as usize;
            fired[number] = fired[number].saturating_add(1);
        }
    }
}

// Whether each record is that of its place, and has as many entries as were met.
fn have_ended(sessions: &[Session], met: &Counts) -> bool
    ensures { (journal : List Entry) → result ≡ true → HaveMet sessions.now journal met.now → All (RecordAgrees journal) sessions.now }
{
    for (place, session) in sessions.iter().enumerate() {
        let Who::Host(number) = session.who else {
            return false;
        };
        let number = number as usize;
        let own: &[Entry] = &session.own;
        if number != place + 1 || met[number] != own.len() {
            return false;
        }
    }
    true
}

// Whether each share is as many firings as were counted.
fn have_fired<L: NetLedger>(workers: &[Worker<L>], fired: &Counts) -> bool
    ensures { (journal : List Entry) → result ≡ true → HaveFired journal fired.now → All (ShareAgrees journal) workers.now }
{
    for worker in workers {
        let Who::Worker(number) = worker.who else {
            return false;
        };
        if fired[number as usize] as u64 != worker.fired {
            return false;
        }
    }
    true
}

/// Whether all records and shares agree with the journal. Where a session is not at the place of its number, it says that they
/// don't.
pub fn all_agree<L: NetLedger>(
    sessions: &[Session],
    workers: &[Worker<L>],
    journal: &[Entry],
) -> bool
    ensures { result ≡ true → All (RecordAgrees journal.now) sessions.now × All (ShareAgrees journal.now) workers.now }
{
    let mut met = [0; 256];
    let mut fired = [0; 256];
    for entry in journal {
        if !goes_on(sessions, &mut met, entry) {
            return false;
        }
        count_firing(&mut fired, entry);
    }
    have_ended(sessions, &met) && have_fired(workers, &fired)
}
