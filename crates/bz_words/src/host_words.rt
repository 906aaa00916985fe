//! Words of sessions that have host commands alone.

ghost use Rattle.std.specs.Prelude.{◌≡◌, ℕ, ◌≤◌, List, Option, IfOk, IfSome, IfNone, vec_len};
ghost use Rattle.bz_model.specs.declared.event.Verb.{Verb};
ghost use Rattle.bz_words.specs.Limits.{max_sessions};
ghost use Rattle.bz_words.specs.Words.{host, IsWord, texts};
ghost use Rattle.bz_words.specs.HostWords.{of_host, SpellsHosts};

use crate::words::{MAX_SESSIONS, SessionError, command};
use bz_model::{Cmd, HostCmd};
use std::alloc::{AllocError, Global};
use std::mem;

/// The host commands that the words spell, one list for each session. A `/` alone separates sessions; no words at all are one
/// session without commands, and `run:N` is a bad word.
pub fn parse_host_words(alloc: Global, words: &[&str]) -> Result<Vec<Vec<HostCmd>>, SessionError>
    ensures right { SpellsHosts (texts words.now) result }
    ensures few { IfOk result (λ v. (1 ≤ vec_len v) × (vec_len v ≤ max_sessions)) }
{
    let mut sessions = Vec::new(alloc);
    let mut session = Vec::new(alloc);
    for (place, word) in words.iter().enumerate() {
        let bad_word = SessionError::BadWord(place + 1);
        if *word == "/" {
            if sessions.len() + 1 == MAX_SESSIONS {
                return Err(bad_word);
            }
            let full = mem::replace(&mut session, Vec::new(alloc));
            sessions.push(full)?;
        } else {
            let Some(command) = host_word(alloc, word)? else {
                return Err(bad_word);
            };
            session.push(command)?;
        }
    }
    sessions.push(session)?;
    Ok(sessions)
}

// The host command that a word spells, if it spells one.
fn host_word(alloc: Global, word: &str) -> Result<Option<HostCmd>, AllocError>
    ensures some { IfOk result (λ o. IfSome o (λ c. IsWord word.now (of_host c))) }
    ensures none { IfOk result (λ o. IfNone o
        ((verb : Verb) (name : List ℕ) (value : Option ℕ) → IsWord word.now (host verb name value) → ⊥)) }
{
    match command(alloc, word)? {
        Some(Cmd::Host(command)) => Ok(Some(command)),
        Some(Cmd::Run(_)) => Ok(None),
        None => Ok(None),
    }
}
