//! Components that are at fault.

use crate::data::{Head, Which, find, letters_of};
use crate::kind_words::{
    is_left_out, operations_of, put_counts, put_kind, put_parameters, put_row, put_widths,
};
use crate::site::Site;
use bz_breeze_records::{Part, Parts, Slot};
use bz_elab::{arranged, array_sizes};
use bz_explain_notes::{Detail, NEAREST, Notes, port_names};
use bz_flat::ElabError;
use bz_kind_rows::{kind_rows, port_at, row_of};
use bz_model::{Chan, ChanKind, Kind, LengthRule, MAX_MEMBERS, Param};
use bz_sexpr::Form;
use bz_text::Text as Letters;
use bz_view::Piece::{self, Carried, Count, Name, Number, Port, Shown, Text, Wide};
use std::alloc::{AllocError, Global};

/// The most of several things that a note lists.
const MOST_LISTED: usize = 10;

/// The most parts whose names are compared with one that is unknown.
const MOST_NAMES: usize = 200_000;

/// What of a channel is not as its port asks.
#[derive(Clone, Copy)]
enum Aspect {
    Kind,
    Width,
}

/// The names of the parts.
pub(crate) fn part_names(alloc: Global, parts: &Parts) -> Result<Vec<&[u8]>, AllocError> {
    let parts = parts.list().iter();
    parts.map(|part| part.name.as_slice()).collect(alloc)
}

// The names of the parts, and behind these those of the kinds.
fn known_names(alloc: Global, parts: &Parts) -> Result<Vec<&[u8]>, AllocError> {
    let mut names = part_names(alloc, parts)?;
    for row in kind_rows() {
        names.push(row.name.as_bytes())?;
    }
    Ok(names)
}

impl Site<'_> {
    /// The notes of a component that is at fault.
    pub(crate) fn explain(&self, notes: &mut Notes, error: ElabError) {
        self.netlist
            .put_listed(notes, self.number, Head::Components, self.position);
        match error {
            ElabError::UnknownComponent(_, _) => self.explain_name(notes),
            ElabError::BadParameter(_, _) => self.explain_params(notes),
            ElabError::BadChannel(_, _) => self.explain_channel(notes),
            ElabError::PortCount(_, _) => self.explain_count(notes),
            ElabError::KindMismatch(_, _) => self.explain_misfit(notes, Aspect::Kind),
            _ => self.explain_misfit(notes, Aspect::Width),
        }
    }

    // A name that is unknown.
    fn explain_name(&self, notes: &mut Notes) {
        let name = self.component.name.as_slice();
        notes.say(
            "found: the name %\n\
            expected: a part of this text, or a kind, whose name has $Brz in front",
            &[Name(name)],
        );
        if is_left_out(name) {
            let left_out = "help: % is a kind of Balsa's that is left out here";
            notes.say(left_out, &[Name(name)]);
        } else if self.netlist.parts.list().len() <= MOST_NAMES {
            let names = notes.gathered(known_names(notes.alloc(), self.netlist.parts));
            let nearest = notes.say_nearest(NEAREST, name, &names);
            add_replacement(notes, self.name_form(), nearest);
        }
    }

    // Parameters that the kind does not take.
    fn explain_params(&self, notes: &mut Notes) {
        let params = self.component.params.as_slice();
        notes.put("found: the parameters (", &[]);
        for (place, param) in params.iter().take(MOST_LISTED).enumerate() {
            if place > 0 {
                notes.put(" ", &[]);
            }
            put_param(notes, param);
        }
        if params.len() > MOST_LISTED {
            notes.put(" ..", &[]);
        }
        notes.put(")", &[]);
        self.put_skipped(notes);
        let name = self.component.name.as_slice();
        notes.put("\nexpected: for % ", &[Name(name)]);
        put_parameters(notes, name);
        notes.say("", &[]);
        self.say_operation(notes, name, params);
    }

    // Goes on with the first of what is skipped among the parameters.
    fn put_skipped(&self, notes: &mut Notes) {
        if let Some(forms) = self.param_forms() {
            if let Some((_, form)) = find(forms, Which::Skipped) {
                let letters = letters_of(self.netlist.text, form);
                notes.put(", and % is skipped", &[Shown(letters)]);
            }
        }
    }

    // Tells the operation that was probably meant.
    fn say_operation(&self, notes: &mut Notes, name: &[u8], params: &[Param]) {
        let operations = notes.gathered(operations_of(notes.alloc(), name));
        if let Some(word) = first_word(params) {
            if !operations.iter().any(|operation| *operation == word) {
                let form = "help: the nearest operation is %";
                let nearest = notes.say_nearest(form, word, &operations);
                add_replacement(notes, self.word_form(word), nearest);
            }
        }
    }

    // The parameter that is this text.
    fn word_form(&self, word: &[u8]) -> Option<Form<'_>> {
        let (_, form) = find(self.param_forms()?, Which::Text(word))?;
        Some(form)
    }

    // An entry that is no channel of the part.
    fn explain_channel(&self, notes: &mut Notes) {
        let count = self.part.channels.len();
        for chan in &self.named(notes) {
            if self.channel(*chan).is_none() {
                let part = Name(&self.part.name);
                let channels = Count(count, "channel");
                let args = [Number(*chan as usize), part, channels];
                notes.add_detail(Detail::Channel(*chan as usize));
                notes.say("found: channel %, and part % has %", &args);
                break;
            }
        }
        notes.say("expected: channels from 1 to %", &[Number(count)]);
    }

    // More or fewer entries than there are ports, or lists of other lengths.
    fn explain_count(&self, notes: &mut Notes) {
        if let Some(inner) = self.inner() {
            let ports = notes.gathered(port_names(notes.alloc(), &inner.ports));
            let entries = Count(self.named(notes).len(), "entry");
            let args = [entries, Name(&inner.name), Count(ports.len(), "port")];
            let form = "found: %\nexpected: one for each port of part %, which has %";
            notes.put(form, &args);
            notes.put_names(&ports);
            notes.say("", &[]);
        } else if let Some(kind) = self.kind(notes) {
            self.put_lengths(notes, &kind);
            put_row(notes, &kind, self.length_rule());
        }
    }

    // Tells the numbers of entries, the lengths of the lists, and how many sets a text gives.
    fn put_lengths(&self, notes: &mut Notes, kind: &Kind) {
        let entries = self.component.entries.as_slice();
        let lists = entries
            .iter()
            .filter(|entry| matches!(entry, Slot::Many(_)));
        notes.put("found: ", &[]);
        put_counts(notes, entries.len(), lists.count());
        let mut form = ", of %";
        for entry in entries {
            if let Slot::Many(chans) = entry {
                notes.put(form, &[Count(chans.len(), "channel")]);
                form = " and %";
            }
        }
        if let Some(count) = self.set_count(kind) {
            notes.put("; its text has %", &[Count(count, "set")]);
        }
        notes.say("", &[]);
    }

    // How long a list may be, where one is not.
    fn length_rule(&self) -> &'static str {
        let mut entries = self.component.entries.as_slice().iter();
        let is_odd = entries.any(|entry| match entry {
            Slot::Many(chans) => chans.is_empty() || chans.len() > MAX_MEMBERS as usize,
            Slot::One(_) => false,
        });
        if is_odd {
            ", and 1 to 4096 channels in each list"
        } else {
            ""
        }
    }

    // How many sets its text gives, where the kind has a specification.
    fn set_count(&self, kind: &Kind) -> Option<usize> {
        match row_of(kind).lengths {
            Some(LengthRule::Sets) => {
                let text = first_word(self.component.params.as_slice())?;
                let marks = text.iter().filter(|byte| **byte == b';').count();
                Some(marks.saturating_add(1))
            }
            _ => None,
        }
    }

    // A channel of another kind or width than its port asks for.
    fn explain_misfit(&self, notes: &mut Notes, aspect: Aspect) {
        if let Some(inner) = self.inner() {
            self.explain_instance(notes, inner, aspect);
        } else if let Some(kind) = self.kind(notes) {
            let entries = self.component.entries.as_slice();
            let alloc = notes.alloc();
            let chans = notes.gathered(arranged(alloc, &kind, &self.part.channels, entries));
            let sizes = array_sizes(entries).unwrap_or([0, 0]);
            match aspect {
                Aspect::Kind => self.explain_kind(notes, &kind, sizes, &chans),
                Aspect::Width => self.explain_widths(notes, &kind, sizes, &chans),
            }
        }
        self.say_exchange(notes);
    }

    // The first port of an instance whose channel is not as in its part.
    fn explain_instance(&self, notes: &mut Notes, inner: &Part, aspect: Aspect) {
        let named = self.named(notes);
        let ports = inner.ports.iter().zip(inner.channels.iter());
        for (number, (port, asked)) in named.iter().zip(ports) {
            if self.differs(*number, *asked, aspect) {
                self.put_carried(notes, Name(&port.name), *number);
                let (form, asked) = match aspect {
                    Aspect::Kind => ("expected: a % channel", Text(asked.kind.word())),
                    Aspect::Width => ("expected: %", Count(asked.width as usize, "bit")),
                };
                notes.put(form, &[asked]);
                notes.say(", as in part %", &[Name(&inner.name)]);
                break;
            }
        }
    }

    fn differs(&self, number: u32, asked: Chan, aspect: Aspect) -> bool {
        match (self.channel(number), aspect) {
            (None, _) => false,
            (Some(chan), Aspect::Kind) => chan.kind != asked.kind,
            (Some(chan), Aspect::Width) => chan.width != asked.width,
        }
    }

    // The first port of a component of this kind whose channel is of another one. The channels are in the order of the ports.
    fn explain_kind(&self, notes: &mut Notes, kind: &Kind, sizes: [u32; 2], chans: &[u32]) {
        for (number, chan) in (1..=u32::MAX).zip(chans.iter()) {
            let carried = (port_at(kind, sizes, number), self.channel(*chan));
            if let (Some(port), Some(found)) = carried {
                if found.kind != port.row.kind {
                    self.put_carried(notes, Port(port), *chan);
                    return put_kind(notes, kind, port);
                }
            }
        }
    }

    // The ports that carry values, with their channels and how many bits these have.
    fn explain_widths(&self, notes: &mut Notes, kind: &Kind, sizes: [u32; 2], chans: &[u32]) {
        let mut listed = 0usize;
        for (number, chan) in (1..=u32::MAX).zip(chans.iter()) {
            let carried = (port_at(kind, sizes, number), self.channel(*chan));
            if let (Some(port), Some(Chan { width, .. })) = carried {
                if port.row.kind != ChanKind::Sync && listed < MOST_LISTED {
                    let before = Text(if listed == 0 { "found: " } else { "; " });
                    let (name, number) = (Port(port), Number(*chan as usize));
                    let bits = Count(width as usize, "bit");
                    notes.put("%% is channel %, %", &[before, name, number, bits]);
                    listed = listed.saturating_add(1);
                }
            }
        }
        notes.say("", &[]);
        put_widths(notes, kind);
    }

    // Tells what a port's channel is and where it stands.
    fn put_carried(&self, notes: &mut Notes, port: Piece<'_>, number: u32) {
        if let Some(chan) = self.channel(number) {
            let place = number as usize;
            notes.add_port(port);
            notes.add_detail(Detail::Channel(place));
            let at = self.netlist.spot_of(self.number, Head::Channels, place);
            let args = [port, Number(place), Carried(chan), at];
            notes.say("found: port % is channel %, which is % (%)", &args);
        }
    }
}

// Adds which name was probably meant in place of a text. One that would need an escape between quotes is left out.
fn add_replacement(notes: &mut Notes, form: Option<Form<'_>>, nearest: Option<&[u8]>) {
    if let (Some(form), Some(name)) = (form, nearest) {
        let mut quoted = Letters::new(notes.alloc());
        quoted.put_bytes(b"\"");
        quoted.put_bytes(name);
        quoted.put_bytes(b"\"");
        match quoted.whole() {
            Ok(meant) if is_plain(name) => notes.add_detail(Detail::Replace(form.span(), meant)),
            Ok(_) => {}
            Err(_) => notes.fail(),
        }
    }
}

fn is_plain(name: &[u8]) -> bool {
    name.iter().all(|byte| (32..=126).contains(byte) && *byte != b'"' && *byte != b'\\')
}

fn put_param(notes: &mut Notes, param: &Param) {
    match param {
        Param::Num(number) => notes.put("%", &[Wide(*number)]),
        Param::Flag(true) => notes.put("#t", &[]),
        Param::Flag(false) => notes.put("#f", &[]),
        Param::Word(text) => notes.put("\"%\"", &[Shown(text)]),
    }
}

fn first_word(params: &[Param]) -> Option<&[u8]> {
    for param in params {
        if let Param::Word(word) = param {
            return Some(word.as_slice());
        }
    }
    None
}
