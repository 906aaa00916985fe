//! What a finding is about, for programs: members of its object of JSON.

use bz_sexpr::Span;
use bz_text::{Piece, Text};
use bz_view::Piece::{Json, Number, Text as Words};

/// What a program can ask of a finding beside its place.
#[derive(Clone, Copy)]
pub enum Detail<'a> {
    /// The name of the part in which the place is.
    Part(&'a [u8]),
    /// Which of the part's components, channels or ports is there, from 1.
    Position(usize),
    /// The name of the component there.
    Component(&'a [u8]),
    /// The number of the channel that the finding is about.
    Channel(usize),
    /// The port that the finding is about, as notes show it.
    Port(&'a [u8]),
    /// What was probably meant in place of these bytes.
    Replace(Span, &'a [u8]),
}

impl Detail<'_> {
    /// Adds it as a member, with a comma in front.
    pub(crate) fn put(self, text: &mut Text) {
        match self {
            Detail::Part(name) => put_name(text, "part", name),
            Detail::Position(position) => text.say(", \"position\": %", &[Number(position)]),
            Detail::Component(name) => put_name(text, "component", name),
            Detail::Channel(number) => text.say(", \"channel\": %", &[Number(number)]),
            Detail::Port(shown) => text.say(", \"port\": %", &[Json(shown)]),
            Detail::Replace(span, meant) => {
                let length = Number(span.to.saturating_sub(span.from));
                text.say(
                    ", \"replace\": {\"byte\": %, \"length\": %, \"text\": %}",
                    &[Number(span.from), length, Json(meant)],
                );
            }
        }
    }
}

// A name in name form.
fn put_name(text: &mut Text, member: &str, name: &[u8]) {
    let mut form = Text::new(text.alloc());
    form.put_pieces(&[Piece::Name(name)]);
    match form.whole() {
        Ok(form) => text.say(", \"%\": %", &[Words(member), Json(form)]),
        Err(_) => text.lose(),
    }
}
