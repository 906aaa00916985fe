//! The lines of the text at which records stand, found by reading the data again.

ghost use Rattle.std.specs.Prelude.{◌≡◌, ◌≤◌, ◌+◌, length, map, IfOk};
ghost use Rattle.std.specs.Option.{option_map};
ghost use Rattle.bz_breeze.specs.Shapes.{after_symbol, headed, members_of};
ghost use Rattle.bz_breeze.specs.Turns.{inside};
ghost use Rattle.bz_sexpr.specs.Forms.{form_view, forms_view};
ghost use Rattle.bz_source.specs.Lines.{feeds, line_at, lines_in, member_lines};
ghost use Rattle.bz_source.specs.Views.{part_lines_of};

use crate::labels::{Labels, labels_of};
use bz_sexpr::{Form, Forms, Leaf, Shape};
use std::alloc::{AllocError, Global};

/// The lines, counted from 1, at which the records of a part begin: its own, those of its channels and of its components, in
/// order. And what these records say of names and of a source.
#[derive(Drop)]
pub struct PartLines {
    pub part: usize,
    pub channels: Vec<usize>,
    pub components: Vec<usize>,
    pub labels: Labels,
}

/// The lines of a text. To ask for bytes in rising order takes one pass over the text.
#[derive(Clone, Copy)]
pub struct LineCounter<'t> {
    text: &'t [u8],
    at: usize,
    line: usize,

    ghost within: { at ≤ length text.now },
    ghost counted: { line ≡ line_at text.now at },
    ghost few: { line ≤ at + 1 },
}

impl<'t> LineCounter<'t> {
    pub fn new(text: &'t [u8]) -> LineCounter<'t>
        ensures { result.text.now ≡ text.now }
    {
        LineCounter {
            text,
            at: 0,
            line: 1,
        }
    }

    /// The line, counted from 1, in which a byte of the text stands, counted from 0.
    pub fn line_of(&mut self, byte: usize) -> usize
        ensures line { result ≡ line_at self.old.text.now byte }
        ensures same { self.new.text.now ≡ self.old.text.now }
    {
        let byte = byte.min(self.text.len());
        let (at, line) = self.start(byte);
        let text = self.text;
        let line = line + feeds(&text[at..byte]);
        *self = LineCounter {
            text,
            at: byte,
            line,
        };
        line
    }

    // A place that is no later, and its line.
    fn start(&self, byte: usize) -> (usize, usize)
        ensures before { result.0 ≤ byte }
        ensures line { result.1 ≡ line_at self.now.text.now result.0 }
        ensures few { result.1 ≤ result.0 + 1 }
    {
        if byte < self.at {
            (0, 1)
        } else {
            (self.at, self.line)
        }
    }
}

// How many line feeds there are.
fn feeds(text: &[u8]) -> usize
    ensures count { result ≡ feeds text.now }
    ensures few { result ≤ length text.now }
{
    text.iter().filter(|byte| **byte == b'\n').count()
}

/// The lines of the records of each part, in the order of the text, `netlist` being what the text spells.
pub fn lines_of(
    alloc: Global,
    text: &[u8],
    netlist: Forms<'_>,
) -> Result<Vec<PartLines>, AllocError>
    ensures { IfOk result (λ v. map part_lines_of v.items ≡ lines_in text.now (forms_view netlist.entry)) }
{
    let mut lines = Vec::new(alloc);
    let mut parts = LineCounter::new(text);
    let mut channels = LineCounter::new(text);
    let mut components = LineCounter::new(text);
    let mut rest = netlist;
    while let Some((form, after)) = rest.split_first() {
        if let Some(items) = headed(b"breeze-part", form) {
            let (chans, comps) = (members(b"channels", items), members(b"components", items));
            lines.push(PartLines {
                part: parts.line_of(form.span().from),
                channels: member_lines(alloc, &mut channels, chans)?,
                components: member_lines(alloc, &mut components, comps)?,
                labels: labels_of(alloc, chans, comps)?,
            })?;
        }
        rest = after;
    }
    Ok(lines)
}

fn member_lines(
    alloc: Global,
    counter: &mut LineCounter<'_>,
    members: Forms<'_>,
) -> Result<Vec<usize>, AllocError>
    ensures ok { IfOk result (λ v. v.items ≡ member_lines counter.old.text.now (forms_view members.entry)) }
    ensures same { counter.new.text.now ≡ counter.old.text.now }
{
    let mut lines = Vec::with_capacity(alloc, members.len())?;
    let mut rest = members;
    while let Some((member, after)) = rest.split_first() {
        lines.push(counter.line_of(member.span().from))?;
        rest = after;
    }
    Ok(lines)
}

/// The data of a list.
pub(crate) fn inside(form: Form<'_>) -> Option<Forms<'_>>
    ensures { option_map forms_view result ≡ inside (form_view form.entry) }
{
    match form.shape() {
        Shape::Items(items) => Some(items),
        _ => None,
    }
}

/// What follows the head in a list headed so.
pub(crate) fn headed<'d>(head: &[u8], form: Form<'d>) -> Option<Forms<'d>>
    ensures { option_map forms_view result ≡ headed head.now (form_view form.entry) }
{
    match inside(form) {
        Some(items) => after(head, items),
        None => None,
    }
}

fn after<'d>(head: &[u8], items: Forms<'d>) -> Option<Forms<'d>>
    ensures { option_map forms_view result ≡ after_symbol head.now (forms_view items.entry) }
{
    let (first, rest) = items.split_first()?;
    match first.shape() {
        Shape::Leaf(Leaf::Symbol(symbol)) if symbol == head => Some(rest),
        _ => None,
    }
}

/// The members of the first of these lists that is headed so, or none.
pub(crate) fn members<'d>(head: &[u8], items: Forms<'d>) -> Forms<'d>
    ensures { forms_view result ≡ members_of head.now (forms_view items.entry) }
{
    let mut rest = items;
    while let Some((item, after)) = rest.split_first() {
        if let Some(members) = headed(head, item) {
            return members;
        }
        rest = after;
    }
    rest
}
