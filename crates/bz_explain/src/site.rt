//! A netlist that was read, and where its records stand.

use crate::data::{Head, inside, members_of, nth, part_form, part_items};
use bz_breeze_records::{Component, Part, Parts};
use bz_elab::flattened;
use bz_explain_notes::{Detail, Notes, Place, put_source, spot_of};
use bz_kind_rows::kind_of;
use bz_model::{Chan, Kind, KindError, Port, numbered};
use bz_sexpr::{Form, Forms, Span};
use bz_source::{Label, PartLines};
use bz_view::Piece::{self, At, Name, Number, Text};
use std::alloc::Global;

/// The text of a netlist, the data that it spells, and the parts that these name.
#[derive(Clone, Copy)]
pub struct NetlistText<'t> {
    pub alloc: Global,
    /// The name of its file, if it is one's.
    pub file: Option<&'t str>,
    pub text: &'t [u8],
    pub data: Forms<'t>,
    pub parts: &'t Parts,
    /// What the records of each part are called, and where they come from.
    pub lines: &'t [PartLines],
}

/// A component of a part.
#[derive(Clone, Copy)]
pub struct Site<'t> {
    pub(crate) netlist: NetlistText<'t>,
    /// The number of its part, from 0.
    pub(crate) number: usize,
    pub(crate) part: &'t Part,
    /// Its position in that part, from 1.
    pub(crate) position: usize,
    pub component: &'t Component,
}

/// Tells where a byte of the text stands: its line and column, then the line itself, and below it a caret with what stands
/// there, by a form.
pub(crate) fn put_place(notes: &mut Notes, text: &[u8], at: usize, mark: &str, args: &[Piece<'_>]) {
    put_source(notes, text, at, "");
    notes.say(mark, args);
}

impl<'t> NetlistText<'t> {
    fn part(self, number: usize) -> Option<&'t Part> {
        self.parts.list().get(number)
    }

    /// The component at a position of a part.
    pub fn site(self, number: usize, position: usize) -> Option<Site<'t>> {
        let part = self.part(number)?;
        let component = part.components.get(position.checked_sub(1)?)?;
        Some(Site {
            netlist: self,
            number,
            part,
            position,
            component,
        })
    }

    /// The name of a part.
    pub fn name(self, number: usize) -> &'t [u8] {
        match self.part(number) {
            Some(part) => part.name.as_slice(),
            None => &[],
        }
    }

    /// The external ports of a part.
    pub fn ports(self, number: usize) -> &'t [Port] {
        match self.part(number) {
            Some(part) => part.ports.as_slice(),
            None => &[],
        }
    }

    // The byte at which a part begins.
    fn byte_of_part(&self, number: usize) -> Option<usize> {
        Some(part_form(self.data, number)?.span().from)
    }

    // A record of a part.
    fn form_of(&self, number: usize, head: Head, position: usize) -> Option<Form<'t>> {
        let part = part_items(part_form(self.data, number)?)?;
        nth(members_of(part, head)?, position)
    }

    /// The byte at which a record of a part begins.
    pub(crate) fn byte_of(&self, number: usize, head: Head, position: usize) -> Option<usize> {
        Some(self.form_of(number, head, position)?.span().from)
    }

    /// Tells where a part stands.
    pub fn put_part(&self, notes: &mut Notes, number: usize) {
        notes.add_detail(Detail::Part(self.name(number)));
        if let Some(byte) = self.byte_of_part(number) {
            put_place(notes, self.text, byte, "part %", &[Name(self.name(number))]);
        }
    }

    /// Tells where a record of a part stands, by what it is there.
    pub fn put_listed(&self, notes: &mut Notes, number: usize, head: Head, position: usize) {
        let part = Name(self.name(number));
        let mark = [Text(head.member()), Number(position), part];
        self.add_record(notes, number, head, position);
        if let Some(byte) = self.byte_of(number, head, position) {
            let Label { name, source } = self.label(number, head, position);
            put_source(notes, self.text, byte, "");
            notes.put("% %", &mark[..2]);
            notes.put_label(Label { name, source: None });
            notes.put(" of part %", &mark[2..]);
            notes.put_label(Label { name: None, source });
            notes.say("", &[]);
        }
    }

    /// Adds which record of a part the notes are about.
    pub fn add_record(&self, notes: &mut Notes, number: usize, head: Head, position: usize) {
        notes.add_detail(Detail::Part(self.name(number)));
        notes.add_detail(Detail::Position(position));
        if let (Head::Components, Some(site)) = (head, self.site(number, position)) {
            notes.add_detail(Detail::Component(site.component.name.as_slice()));
        }
    }

    /// What a record of a part is called, and where it comes from.
    pub(crate) fn label(&self, number: usize, head: Head, position: usize) -> Label<'_> {
        let mut label = Label {
            name: None,
            source: None,
        };
        if let (Some(lines), Some(place)) = (self.lines.get(number), position.checked_sub(1)) {
            let marks = match head {
                Head::Channels => lines.labels.channels.get(place),
                Head::Components => lines.labels.components.get(place),
                Head::Ports => None,
            };
            if let Some(Some(mark)) = marks {
                label.source = Some(mark.at());
            }
            if let (Head::Channels, Some(Some(name))) = (head, lines.labels.names.get(place)) {
                label.name = Some(name.as_slice());
            }
        }
        label
    }

    /// Where the part of a name begins, or else the netlist.
    pub fn place_of_part(&self, name: &[u8]) -> Place {
        let byte = match self.parts.number(name) {
            Some(number) => self.byte_of_part(number),
            None => None,
        };
        let byte = byte.unwrap_or(0);
        let spot = spot_of(self.text, byte);
        Place { byte, spot }
    }

    /// The line and column of a record.
    pub(crate) fn spot_of(&self, number: usize, head: Head, position: usize) -> Piece<'static> {
        At(match self.byte_of(number, head, position) {
            Some(byte) => Some(spot_of(self.text, byte)),
            None => None,
        })
    }
}

impl<'t> Site<'t> {
    /// The bytes of its record.
    pub fn span(self) -> Option<Span> {
        Some(self.form()?.span())
    }

    // Its record.
    fn form(self) -> Option<Form<'t>> {
        self.netlist
            .form_of(self.number, Head::Components, self.position)
    }

    /// The name in its record.
    pub(crate) fn name_form(self) -> Option<Form<'t>> {
        nth(inside(self.form()?)?, 2)
    }

    /// The parameters in its record.
    pub(crate) fn param_forms(self) -> Option<Forms<'t>> {
        inside(nth(inside(self.form()?)?, 3)?)
    }

    /// The part that it is an instance of.
    pub fn inner(self) -> Option<&'t Part> {
        self.netlist.parts.find(self.component.name.as_slice())
    }

    /// Its kind, where its name and parameters are those of one.
    pub(crate) fn kind(&self, notes: &mut Notes) -> Option<Kind> {
        match kind_of(
            notes.alloc(),
            self.component.name.as_slice(),
            &self.component.params,
        ) {
            Ok(kind) => Some(kind),
            Err(KindError::Memory) => {
                notes.fail();
                None
            }
            Err(_) => None,
        }
    }

    /// All channels that its entries name, in order.
    pub(crate) fn named(&self, notes: &mut Notes) -> Vec<u32> {
        notes.gathered(flattened(notes.alloc(), self.component.entries.as_slice()))
    }

    /// The channel of its part of a number, from 1.
    pub(crate) fn channel(&self, number: u32) -> Option<Chan> {
        numbered(&self.part.channels, number).copied()
    }
}
