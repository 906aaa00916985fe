//! The names that lines tell, and the port whose name stands in a line.

ghost use Rattle.std.specs.Prelude.{◌≡◌, ◌<◌, ◌^◌, ◌++◌, ◌∷◌, List, codes, length, map, IfSome, IfOk, MatchOption, string_bytes};
ghost use Rattle.bz_model.specs.Names.{External, external};
ghost use Rattle.bz_model.specs.Traces.{name_form, byte_form};
ghost use Rattle.bz_trace_text.specs.Spelling.{AreSpelled};
ghost use Rattle.bz_trace_text.specs.Reading.{HasNoSpace, Reads, form_of, strip, port_from};

use crate::numeral::Numeral;
use crate::reading::strip;
use crate::spelled::Spelled;
use bz_model::{NameRow, Names, Port};
use bz_text::{NameForm, hex_digit, is_plain};
use std::alloc::Global;
use std::marker::Model;

/// The names of a net, for the lines of its traces: a line's port is found in one step, however many there are.
#[derive(Drop)]
pub struct LineNames<'a> {
    names: &'a Names,
    // The forms of the ports' names, by which they are found.
    forms: Option<NameRow>,
    spelled: Spelled,
}

impl<'a> Model for LineNames<'a> {
    ghost use Rattle.std.specs.Prelude.{◌≡◌, map, IfSome};
    ghost use Rattle.bz_model.specs.Names.{Outside};
    ghost use Rattle.bz_trace_text.specs.Reading.{form_of};

    ghost Value = { Outside };

    ghost view = { λ n. n.names.now };

    ghost invariant = { λ n. IfSome n.forms (λ forms. forms ≡ map form_of n.names.now.ports) };
}

impl<'a> LineNames<'a> {
    pub fn new(alloc: Global, names: &'a Names) -> LineNames<'a>
        ensures { result ≡ names.now }
    {
        LineNames::spelling(alloc, names, 0)
    }

    /// The same, with the numbers below `count` spelled for lines that are foretold.
    pub fn spelling(alloc: Global, names: &'a Names, count: usize) -> LineNames<'a>
        ensures { result ≡ names.now }
    {
        let forms = forms_of(alloc, names.ports());
        let spelled = Spelled::below(alloc, count);
        LineNames {
            names,
            forms,
            spelled,
        }
    }

    #[inline(always)]
    pub(crate) fn spelled(&self) -> &[Numeral]
        ensures { AreSpelled result.now }
    {
        self.spelled.as_slice()
    }

    pub(crate) fn names(&self) -> &Names
        ensures { result.now ≡ self.now }
    {
        self.names
    }
}

// The forms of the names of ports in a row, `None` where there is no memory for it: then ports are looked for one by one.
fn forms_of(alloc: Global, ports: &[Port]) -> Option<NameRow>
    ensures { IfSome result (λ forms. forms ≡ map form_of (map external ports.now)) }
{
    let mut forms = Vec::with_capacity(alloc, ports.len()).ok()?;
    for port in ports {
        let form = format!(in alloc; "{}", NameForm(&port.name)).ok()?;
        forms.push(form.into_bytes()).ok()?;
    }
    NameRow::new(alloc, forms).ok()
}

/// What follows a byte of a name, in its form.
#[tactic(auto, unfolding(bz_model::specs::Traces::byte_form))]
fn strip_byte(text: &[u8], byte: u8) -> Option<&[u8]>
    ensures { Reads (λ r. r.now) result (strip (byte_form byte) text.now) }
{
    if is_plain(byte) {
        strip(text, &[byte])
    } else {
        strip(text, &[b'%', hex_digit(byte / 16), hex_digit(byte % 16)])
    }
}

/// What follows a name, in its form.
fn strip_name<'a>(text: &'a [u8], name: &[u8]) -> Option<&'a [u8]>
    ensures { Reads (λ r. r.now) result (strip (name_form name.now) text.now) }
{
    if name.is_empty() {
        return strip(text, b"%");
    }
    let mut rest = text;
    for byte in name {
        let Some(after) = strip_byte(rest, *byte) else {
            return None;
        };
        rest = after;
    }
    Some(rest)
}

/// What follows a name, in its form, and a space.
fn strip_word<'a>(text: &'a [u8], name: &[u8]) -> Option<&'a [u8]>
    ensures { Reads (λ r. r.now) result (strip (name_form name.now ++ codes " ") text.now) }
{
    match strip_name(text, name) {
        Some(text) => strip(text, b" "),
        None => None,
    }
}

/// The first port whose name stands at the front, and a space.
pub(crate) fn port_at<'a>(names: &LineNames, text: &'a [u8]) -> Option<(u32, &'a [u8])>
    ensures { Reads (λ r. (r.0, r.1.now)) result (port_from 1 names.now.ports text.now) }
{
    match &names.forms {
        Some(forms) => port_by_form(forms, names.names.ports(), text),
        None => port_among(names.names.ports(), text),
    }
}

// The same by the forms of all ports.
fn port_by_form<'a>(forms: &NameRow, ports: &[Port], text: &'a [u8]) -> Option<(u32, &'a [u8])>
    requires few { length ports.now < 2 ^ 32 }
    requires forms { forms.now ≡ map form_of (map external ports.now) }
    ensures { Reads (λ r. (r.0, r.1.now)) result (port_from 1 (map external ports.now) text.now) }
{
    let Some((form, rest)) = word_at(text) else {
        return None;
    };
    match forms.place(form) {
        Some(place) => Some((place as u32 + 1, rest)),
        None => None,
    }
}

// The word up to the first space, and what follows that space.
fn word_at(text: &[u8]) -> Option<(&[u8], &[u8])>
    ensures { MatchOption result (HasNoSpace text.now) (λ r. HasNoSpace r.0.now × (text.now ≡ r.0.now ++ 32 ∷ r.1.now)) }
{
    for (place, byte) in text.iter().enumerate() {
        if *byte == b' ' {
            return Some((&text[..place], &text[place + 1..]));
        }
    }
    None
}

// The same one by one.
fn port_among<'a>(ports: &[Port], text: &'a [u8]) -> Option<(u32, &'a [u8])>
    requires { length ports.now < 2 ^ 32 }
    ensures { Reads (λ r. (r.0, r.1.now)) result (port_from 1 (map external ports.now) text.now) }
{
    for (place, port) in ports.iter().enumerate() {
        if let Some(rest) = strip_word(text, &port.name) {
            return Some((place as u32 + 1, rest));
        }
    }
    None
}
