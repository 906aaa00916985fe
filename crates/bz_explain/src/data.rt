//! The data of a netlist, and what of them is looked for.

use bz_sexpr::{Form, Forms, Leaf, Shape};

/// The three forms of a part.
#[derive(Clone, Copy, PartialEq, Eq)]
pub enum Head {
    Ports,
    Channels,
    Components,
}

/// Which of several data is looked for.
#[derive(Clone, Copy)]
pub enum Which<'a> {
    /// The one of this number, from 1.
    Number(usize),
    /// The one that holds this byte of the text.
    Holding(usize),
    /// The list of this head.
    Headed(Head),
    /// What is skipped among parameters: a symbol or a list.
    Skipped,
    /// This text.
    Text(&'a [u8]),
}

/// Data in a row, each with its number, from 1.
#[derive(Clone, Copy)]
pub struct Members<'t> {
    rest: Forms<'t>,
    number: usize,
}

impl Head {
    /// What a member of the form is. The form's own head is this with an `s`.
    pub fn member(self) -> &'static str {
        match self {
            Head::Ports => "port",
            Head::Channels => "channel",
            Head::Components => "component",
        }
    }

    /// The head of one of the forms.
    pub fn of(form: Form<'_>) -> Option<Head> {
        let (symbol, _) = headed(form)?;
        let member = symbol.strip_suffix(b"s")?;
        for head in [Head::Ports, Head::Channels, Head::Components] {
            if head.member().as_bytes() == member {
                return Some(head);
            }
        }
        None
    }
}

/// What follows the head of a part, where a datum at top level is one.
pub(crate) fn part_items(form: Form<'_>) -> Option<Forms<'_>> {
    match headed(form)? {
        (head, items) if head == b"breeze-part".as_slice() => Some(items),
        _ => None,
    }
}

/// The members of the first form of this head in a part.
pub(crate) fn members_of(part: Forms<'_>, head: Head) -> Option<Forms<'_>> {
    let (_, form) = find(part, Which::Headed(head))?;
    let (_, members) = headed(form)?;
    Some(members)
}

/// The part of a number, counted from 0 in the order of the text.
pub(crate) fn part_form(netlist: Forms<'_>, number: usize) -> Option<Form<'_>> {
    let mut before = 0usize;
    for (_, form) in Members::of(netlist) {
        if part_items(form).is_some() {
            if before == number {
                return Some(form);
            }
            before = before.saturating_add(1);
        }
    }
    None
}

/// The first of several data that is looked for, and its number, from 1.
pub(crate) fn find<'t>(data: Forms<'t>, which: Which<'_>) -> Option<(usize, Form<'t>)> {
    for (number, form) in Members::of(data) {
        let is_sought = match which {
            Which::Number(sought) => number == sought,
            Which::Holding(at) => form.span().from <= at && at < form.span().to,
            Which::Headed(head) => Head::of(form) == Some(head),
            Which::Skipped => is_skipped(form),
            Which::Text(text) => is_text(form, text),
        };
        if is_sought {
            return Some((number, form));
        }
    }
    None
}

/// Whether a datum is skipped among parameters: a symbol or a list.
pub(crate) fn is_skipped(form: Form<'_>) -> bool {
    matches!(form.shape(), Shape::Items(_) | Shape::Leaf(Leaf::Symbol(_)))
}

fn is_text(form: Form<'_>, text: &[u8]) -> bool {
    match form.shape() {
        Shape::Leaf(Leaf::Text(found)) => found.plain() == Some(text),
        _ => false,
    }
}

/// The letters of a text that spell a datum.
pub(crate) fn letters_of<'t>(text: &'t [u8], form: Form<'_>) -> &'t [u8] {
    let span = form.span();
    text.get(span.from..span.to).unwrap_or(b"")
}

/// A datum by its number, from 1.
pub(crate) fn nth(data: Forms<'_>, number: usize) -> Option<Form<'_>> {
    let (_, form) = find(data, Which::Number(number))?;
    Some(form)
}

impl<'t> Members<'t> {
    pub fn of(forms: Forms<'t>) -> Members<'t> {
        Members {
            rest: forms,
            number: 1,
        }
    }
}

impl<'t> Iterator for Members<'t> {
    ghost use Rattle.std.specs.Prelude.{length};
    ghost use Rattle.std.specs.Iterator.{at_most};
    ghost use Rattle.bz_sexpr.specs.Forms.{forms_view};

    type Item = (usize, Form<'t>);

    ghost remaining = { λ s. at_most (length (forms_view s.rest)) };

    fn next(&mut self) -> Option<(usize, Form<'t>)> {
        let (first, rest) = self.rest.split_first()?;
        let number = self.number;
        *self = Members {
            rest,
            number: number.saturating_add(1),
        };
        Some((number, first))
    }
}

/// The data of a list.
pub(crate) fn inside(form: Form<'_>) -> Option<Forms<'_>> {
    match form.shape() {
        Shape::Items(items) => Some(items),
        Shape::Leaf(_) => None,
    }
}

/// The symbol at the head of a list, and what follows it.
pub(crate) fn headed(form: Form<'_>) -> Option<(&[u8], Forms<'_>)> {
    let (first, rest) = inside(form)?.split_first()?;
    match first.shape() {
        Shape::Leaf(Leaf::Symbol(head)) => Some((head, rest)),
        _ => None,
    }
}
