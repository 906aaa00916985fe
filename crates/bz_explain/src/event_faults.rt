//! Events that a net refuses.

use crate::asked::Words;
use crate::told::FULL;
use bz_breeze_records::Part;
use bz_explain_notes::{Notes, port_names};
use bz_model::{Chan, Cmd, HostCmd, NetError, Port, Value, Verb, low_bits};
use bz_view::Piece::{Count, Name, Number, Shown, Text, Wide};
use bz_words::command;

/// An external port, and its channel.
#[derive(Clone, Copy)]
struct Outside<'t> {
    port: &'t Port,
    chan: Chan,
}

/// Goes on with the notes of an event of a word that was refused, by its number from 1.
pub(crate) fn explain_event(
    notes: &mut Notes,
    part: &Part,
    words: Words<'_, '_>,
    number: usize,
    error: NetError,
) {
    if let Some(word) = words.word(number) {
        let args = [Number(number), Shown(word.as_bytes())];
        notes.put("found: word % is %", &args);
        explain_refused(notes, part, word, error);
    }
}

/// The notes of an event that ended a session of a pool: of its first word that is refused for such a reason.
pub(crate) fn explain_session(
    notes: &mut Notes,
    part: &Part,
    words: Words<'_, '_>,
    session: usize,
    error: NetError,
) {
    let mut current = 1usize;
    let mut number = 0usize;
    for (before, word) in words.list.iter().enumerate() {
        number = number.saturating_add(1);
        if *word == "/" {
            current = current.saturating_add(1);
            number = 0;
        } else if current == session && is_refused(notes, part, word, error) {
            words.put_place(notes, before + 1);
            let args = [Number(number), Number(session), Shown(word.as_bytes())];
            notes.put("found: word % of session % is %", &args);
            return explain_refused(notes, part, word, error);
        }
    }
    notes.say(FULL, &[]);
}

// Whether a word is refused for a reason, at any moment.
fn is_refused(notes: &mut Notes, part: &Part, word: &str, error: NetError) -> bool {
    let Some(HostCmd { verb, port, value }) = host_cmd(notes, word) else {
        return false;
    };
    let refusal = match port_named(part, &port) {
        Some(Outside { port, chan }) => verb.refusal(port.passive, chan, value),
        None => Some(NetError::UnknownPort),
    };
    refusal == Some(error)
}

// The host's command that a word is, if it is one.
fn host_cmd(notes: &mut Notes, word: &str) -> Option<HostCmd> {
    match command(notes.alloc(), word) {
        Ok(Some(Cmd::Host(cmd))) => Some(cmd),
        Ok(_) => None,
        Err(_) => {
            notes.fail();
            None
        }
    }
}

// The external port of a name.
fn port_named<'t>(part: &'t Part, name: &[u8]) -> Option<Outside<'t>> {
    for (port, chan) in part.ports.iter().zip(part.channels.iter()) {
        if port.name.as_slice() == name {
            return Some(Outside { port, chan: *chan });
        }
    }
    None
}

// Goes on with why a word of a host was refused.
fn explain_refused(notes: &mut Notes, part: &Part, word: &str, error: NetError) {
    if let Some(HostCmd { verb, port, .. }) = host_cmd(notes, word) {
        match port_named(part, &port) {
            None => explain_unknown(notes, part, &port),
            Some(outside) => outside.explain(notes, verb, error),
        }
    }
}

// A port that there is not.
fn explain_unknown(notes: &mut Notes, part: &Part, name: &[u8]) {
    let names = notes.gathered(port_names(notes.alloc(), &part.ports));
    let count = Count(names.len(), "port");
    notes.put(", and no port has the name %\nexpected: ", &[Name(name)]);
    notes.say_one_of(count, &names, name);
}

impl Outside<'_> {
    // A word that the port doesn't take.
    fn explain(&self, notes: &mut Notes, verb: Verb, error: NetError) {
        notes.put(", and port % ", &[Name(&self.port.name)]);
        match error {
            NetError::WrongSide if self.port.passive => {
                notes.put("is passive: there the host asks and the net answers", &[]);
                self.say_words(notes, &[Verb::Offer, Verb::Collect]);
            }
            NetError::WrongSide => {
                notes.put("is active: there the net asks and the host answers", &[]);
                self.say_words(notes, &[Verb::Accept, Verb::Answer]);
            }
            NetError::ValueMissing | NetError::ValueUnwanted => {
                let has_value = verb.wants_value(self.chan.kind);
                let value = Text(if has_value { "a" } else { "no" });
                notes.put("carries % value there", &[value]);
                self.say_words(notes, &[verb]);
            }
            _ => {
                let width = self.chan.width;
                let bits = Count(width as usize, "bit");
                let args = [bits, Wide(low_bits(Value::MAX, width))];
                notes.say("has %\nexpected: a value up to %", &args);
            }
        }
    }

    // Tells words that fit at the port, one after the other: `accept:i, and then answer:i:V with V below 2^8`.
    fn say_words(&self, notes: &mut Notes, verbs: &[Verb]) {
        notes.put("\nexpected: ", &[]);
        let mut before = "";
        for verb in verbs {
            let form = if verb.wants_value(self.chan.kind) {
                "%%:%:V with V below 2^%"
            } else {
                "%%:%"
            };
            let (name, width) = (Name(&self.port.name), Number(self.chan.width as usize));
            notes.put(form, &[Text(before), Text(verb.word()), name, width]);
            before = ", and then ";
        }
        notes.say("", &[]);
    }
}
