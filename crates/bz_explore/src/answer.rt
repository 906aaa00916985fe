//! The answer of a line.

use crate::explored::Ending;
use crate::table::{Form, words_of_commands};
use crate::words::put_worded;
use bz_explain_notes::nearest_name;
use bz_model::Entry;
use bz_text::Text;
use bz_trace_text::put_entries;
use bz_view::{HALVES, MORE, Piece, Seen, gathered, put_left_out};
use std::alloc::Global;

/// What is told of a line, and how the session went up to it.
#[derive(Drop)]
pub(crate) struct Answer {
    pub text: Text,
    /// The members of its object, where answers are objects.
    pub members: Text,
    pub is_object: bool,
    /// Whether the line can't be followed.
    pub is_fault: bool,
    /// The number of the line, where it is not typed at a prompt.
    pub line: Option<u64>,
    pub ending: Ending,
}

impl Answer {
    /// An answer of nothing.
    pub fn new(alloc: Global, is_object: bool) -> Answer {
        Answer {
            text: Text::new(alloc),
            members: Text::new(alloc),
            is_object,
            is_fault: false,
            line: None,
            ending: Ending::Well,
        }
    }

    /// Forgets what was told of the line before.
    pub fn begin(&mut self) {
        let alloc = self.text.alloc();
        self.text = Text::new(alloc);
        self.members = Text::new(alloc);
        self.is_fault = false;
    }

    /// Begins to tell why the line can't be followed.
    pub fn begin_error(&mut self) {
        self.ending = Ending::Bad;
        self.is_fault = true;
        if self.is_object {
            return;
        }
        self.text.put("error: ");
        if let Some(line) = self.line {
            self.text.say("line %: ", &[Piece::Wide(line.into())]);
        }
    }

    /// Tells why the line can't be followed.
    pub fn complain(&mut self, form: &str, pieces: &[Piece<'_>]) {
        self.begin_error();
        self.text.say(form, pieces);
    }

    /// Tells that what was compared is as expected.
    pub fn agree(&mut self) {
        self.text.put("as expected\n");
        if self.is_object {
            self.members.put(", \"as_expected\": true");
        }
    }

    /// Begins to tell that what was compared is not as expected.
    pub fn differ(&mut self) {
        self.ending = self.ending.or(Ending::Differed);
        if self.is_object {
            let told = ", \"as_expected\": false, \"status\": 1";
            self.members.put(told);
        }
    }

    /// Tells that a word doesn't fit a command of this form, and what it is instead.
    pub fn misfit(&mut self, form: Form, word: &str, what: &str) {
        let (form, word) = (Piece::Text(form.typed), Piece::Shown(word.as_bytes()));
        self.complain("%: `%` is %\n", &[form, word, Piece::Text(what)]);
    }

    /// Tells that what was typed is no command, and which one is near to its first word, or to what stands there before a colon.
    pub fn no_command(&mut self, head: &str, typed: &[u8]) {
        self.complain("`%` is no command; ", &[Piece::Shown(typed)]);
        let alloc = self.text.alloc();
        let words = gathered(words_of_commands(alloc), &mut self.text);
        let front = head.split(':').next().unwrap_or("");
        match nearest_name(alloc, front.as_bytes(), words.as_slice()) {
            Ok(Some(word)) => self.text.say("the nearest is `%`\n", &[Piece::Bytes(word)]),
            Ok(None) => self.text.put("`help` tells them\n"),
            Err(_) => self.text.lose(),
        }
    }
}

/// Adds to a list; where memory is refused for it the text is lost.
pub(crate) fn add<T: Drop>(list: &mut Vec<T>, item: T, text: &mut Text) {
    if list.push(item).is_err() {
        text.lose();
    }
}

/// Adds the lines of entries; of more than forty the first and the last twenty.
pub(crate) fn put_added(seen: Seen<'_>, entries: &[Entry], is_worded: bool, text: &mut Text) {
    let (first, end) = HALVES.left_out(entries.len());
    put_lines(seen, entries.get(..first).unwrap_or(&[]), is_worded, text);
    put_left_out(end.saturating_sub(first), MORE, text);
    put_lines(seen, entries.get(end..).unwrap_or(&[]), is_worded, text);
}

// Adds the lines of entries, each move with its words behind it where they are asked for.
fn put_lines(seen: Seen<'_>, entries: &[Entry], is_worded: bool, text: &mut Text) {
    if is_worded {
        put_worded(seen, entries, text);
    } else {
        let _ = put_entries(text, seen.net.names(), entries);
    }
}
