//! Parts that are at fault: what stands at the byte that the fault tells.

use crate::data::{Head, Which, find, headed, members_of, nth, part_items};
use crate::member_faults::explain_member;
use crate::reading::{find_named, name_in, say_found};
use crate::site::put_place;
use bz_breeze::ByteAt;
use bz_explain_notes::{Detail, Notes, spot_of};
use bz_sexpr::{Form, Forms};
use bz_view::Piece::{self, At, Count, Name, Number};

/// A part that is at fault.
#[derive(Clone, Copy)]
pub(crate) struct Wrong<'t> {
    text: &'t [u8],
    name: &'t [u8],
    /// The byte at which it is at fault.
    at: usize,
    /// What follows its head.
    items: Forms<'t>,
}

/// The notes of a part that is at fault at a place.
pub(crate) fn explain_part(notes: &mut Notes, text: &[u8], netlist: Forms<'_>, place: &ByteAt) {
    let name = match &place.part {
        Some(name) => name.as_slice(),
        None => &[],
    };
    if place.part.is_some() {
        notes.add_detail(Detail::Part(name));
    }
    let at = place.at;
    if let Some((_, form)) = find(netlist, Which::Holding(at)) {
        if let Some(items) = part_items(form) {
            let part = Wrong {
                text,
                name,
                at,
                items,
            };
            part.explain(notes, form, netlist);
        }
    }
}

impl<'t> Wrong<'t> {
    // What stands at the byte, and why that is wrong.
    fn explain(&self, notes: &mut Notes, part: Form<'_>, netlist: Forms<'_>) {
        match find(self.items, Which::Holding(self.at)) {
            _ if part.span().from == self.at => {
                self.put_mark(notes, "this part", &[]);
                let belongs = " where its name belongs\n\
                    expected: a name in quotes, as in (breeze-part \"p\" ..)";
                say_found(notes, nth(self.items, 1), belongs);
            }
            Some((1, item)) if item.span().from == self.at => {
                self.put_mark(notes, "a second part %", &[Name(self.name)]);
                let head = b"breeze-part".as_slice();
                let first = find_named(notes, netlist, Some(head), self.name);
                self.put_first(notes, first);
                notes.say("expected: a name of its own for each part of a text", &[]);
            }
            Some((_, item)) => self.explain_form(notes, item),
            None => self.explain_missing(notes),
        }
    }

    // A form that is a second one of its head, or has a member that is at fault.
    fn explain_form(&self, notes: &mut Notes, item: Form<'_>) {
        let (Some(head), Some((_, members))) = (Head::of(item), headed(item)) else {
            return;
        };
        let (word, name) = (Piece::Text(head.member()), Name(self.name));
        if item.span().from == self.at {
            self.put_mark(notes, "the second %s form of part %", &[word, name]);
            self.put_first(notes, find(self.items, Which::Headed(head)));
            let expected =
                "expected: each of ports, channels and components at most once in a part";
            notes.say(expected, &[]);
        } else if let Some((number, member)) = find(members, Which::Holding(self.at)) {
            self.put_mark(notes, "% % of part %", &[word, Number(number), name]);
            explain_member(notes, self, head, member);
        }
    }

    // Tells where it is at fault, and by a form what stands there.
    fn put_mark(&self, notes: &mut Notes, mark: &str, args: &[Piece<'_>]) {
        put_place(notes, self.text, self.at, mark, args);
    }

    // Tells where the first one of two stands.
    fn put_first(&self, notes: &mut Notes, first: Option<(usize, Form<'_>)>) {
        if let Some((_, first)) = first {
            notes.say("found: its first one is at %", &[self.spot_of(first)]);
        }
    }

    /// The line and column of a datum.
    pub(crate) fn spot_of(&self, form: Form<'_>) -> Piece<'static> {
        At(Some(spot_of(self.text, form.span().from)))
    }

    // Fewer channels than ports.
    fn explain_missing(&self, notes: &mut Notes) {
        let channels = self.count(Head::Channels);
        let lacking = channels.saturating_add(1);
        let args = [
            Count(self.count(Head::Ports), "port"),
            Count(channels, "channel"),
            Number(lacking),
        ];
        self.put_mark(notes, "part % ends here", &[Name(self.name)]);
        notes.put("found: % and %: port %", &args);
        if let Some(name) = self.name_of_port(notes, lacking) {
            notes.put(", %,", &[Name(&name)]);
        }
        notes.say(
            " has no channel\n\
            expected: a channel for each port: the ports are the first channels",
            &[],
        );
    }

    // The name of a port by its number, where it has one.
    fn name_of_port(&self, notes: &mut Notes, number: usize) -> Option<Vec<u8>> {
        name_in(notes, nth(self.members(Head::Ports)?, number)?, None)
    }

    // How many members one of its forms has.
    fn count(&self, head: Head) -> usize {
        match self.members(head) {
            Some(members) => members.len(),
            None => 0,
        }
    }

    /// The members of one of its forms.
    pub(crate) fn members(self, head: Head) -> Option<Forms<'t>> {
        members_of(self.items, head)
    }
}
