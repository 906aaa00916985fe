//! The notes of a fault while they are gathered.

use crate::detail::Detail;
use crate::nearest::nearest_name;
use bz_source::Label;
use bz_text::{Put, Text};
use bz_view::{Piece, Spot, put_label};
use std::alloc::{AllocError, Global};
use std::mem;

/// The most names that are listed.
const MOST_LISTED: usize = 10;

/// Tells the nearest name.
pub const NEAREST: &str = "help: the nearest name is %";

/// A place in a netlist.
#[derive(Clone, Copy)]
pub struct Place {
    /// The byte, counted from 0.
    pub byte: usize,
    pub spot: Spot,
}

/// Notes, and the text of one that goes on. Where memory was wanting for some of it there are no notes at all.
#[derive(Drop)]
pub struct Notes {
    alloc: Global,
    list: Vec<Text>,
    line: Text,
    /// The name of the file that they speak of, empty where it has none.
    file: Vec<u8>,
    /// The first place that they tell.
    place: Option<Place>,
    /// What they are about, as members of an object of JSON.
    details: Text,
    is_short: bool,
}

impl Notes {
    /// No notes yet.
    pub fn new(alloc: Global) -> Notes {
        Notes {
            alloc,
            list: Vec::new(alloc),
            line: Text::new(alloc),
            file: Vec::new(alloc),
            place: None,
            details: Text::new(alloc),
            is_short: false,
        }
    }

    /// No notes yet on the text of a file, if it is one's.
    pub fn on(alloc: Global, file: Option<&str>) -> Notes {
        let mut notes = Notes::new(alloc);
        let name = file.unwrap_or("");
        if notes.file.extend_from_slice(name.as_bytes()).is_err() {
            notes.fail();
        }
        notes
    }

    /// What the notes lie in.
    pub fn alloc(&self) -> Global {
        self.alloc
    }

    /// Adds that they are about a port, by what shows it.
    pub fn add_port(&mut self, port: Piece<'_>) {
        let mut shown = Text::new(self.alloc);
        shown.say("%", &[port]);
        match shown.whole() {
            Ok(letters) => self.add_detail(Detail::Port(letters)),
            Err(_) => self.fail(),
        }
    }

    /// The notes that were ended.
    pub(crate) fn ended(&self) -> &[Text] {
        if self.is_short || self.line.whole().is_err() {
            &[]
        } else {
            self.list.as_slice()
        }
    }

    /// The first place that they tell, if they tell one.
    pub fn place(&self) -> Option<Place> {
        self.place
    }

    /// What they are about, as members of an object of JSON, each with a comma in front.
    pub(crate) fn details(&self) -> &[u8] {
        match self.details.whole() {
            Ok(details) => details,
            Err(_) => b"",
        }
    }

    /// Adds what they are about, for programs. Each is to be added once.
    pub fn add_detail(&mut self, detail: Detail<'_>) {
        detail.put(&mut self.details);
    }

    /// How many bytes the line has so far.
    pub(crate) fn width(&self) -> usize {
        match self.line.whole() {
            Ok(line) => line.len(),
            Err(_) => 0,
        }
    }

    /// Memory was wanting.
    pub fn fail(&mut self) {
        self.is_short = true;
    }

    /// What was gathered for a note, or nothing where memory was wanting for it.
    pub fn gathered<T: Drop>(&mut self, list: Result<Vec<T>, AllocError>) -> Vec<T> {
        match list {
            Ok(list) => list,
            Err(_) => {
                self.fail();
                Vec::new(self.alloc)
            }
        }
    }

    /// Goes on with a form: each `%` in it is the next argument, and each `\n` ends a note.
    pub fn put(&mut self, form: &str, args: &[Piece<'_>]) {
        let mut next = 0usize;
        for byte in form.as_bytes() {
            match *byte {
                b'\n' => self.end(),
                b'%' => {
                    if let Some(arg) = args.get(next) {
                        arg.put(&mut self.line);
                    }
                    next = next.saturating_add(1);
                }
                _ => self.line.put_bytes(&[*byte]),
            }
        }
    }

    /// The same, and ends the note.
    pub fn say(&mut self, form: &str, args: &[Piece<'_>]) {
        self.put(form, args);
        self.end();
    }

    /// Goes on with what something is called and where it comes from.
    pub fn put_label(&mut self, label: Label<'_>) {
        put_label(&mut self.line, label);
    }

    /// Goes on with a place in the file, or else in what `of` says.
    pub(crate) fn put_spot(&mut self, place: Place, of: &str) {
        self.place = self.place.or(Some(place));
        let spot = place.spot;
        if of.is_empty() && !self.file.is_empty() {
            let args = [
                Piece::Bytes(&self.file),
                Piece::Number(spot.line),
                Piece::Number(spot.column),
            ];
            self.line.say("%:%:%", &args);
        } else {
            self.put("%%", &[Piece::At(Some(spot)), Piece::Text(of)]);
        }
    }

    /// Goes on with the first ten of these names, behind a colon: `: a b`.
    pub fn put_names(&mut self, names: &[&[u8]]) {
        for (place, name) in names.iter().take(MOST_LISTED).enumerate() {
            self.put(name_form(place), &[Piece::Name(name)]);
        }
    }

    /// Goes on with so many names, of which one was to be given, ends the note, and tells which one was probably meant:
    /// `one of 2 parts: a b`.
    pub fn say_one_of(&mut self, count: Piece<'_>, names: &[&[u8]], name: &[u8]) {
        self.put("one of %", &[count]);
        self.put_names(names);
        match names.len().checked_sub(MOST_LISTED) {
            Some(more) if more > 0 => self.say(" and % more", &[Piece::Number(more)]),
            _ => self.end(),
        }
        self.say_nearest(NEAREST, name, names);
    }

    /// Tells by a form which of several names was probably meant, where one is near enough, and answers it.
    pub fn say_nearest<'c>(
        &mut self,
        form: &str,
        name: &[u8],
        names: &[&'c [u8]],
    ) -> Option<&'c [u8]> {
        let nearest = match nearest_name(self.alloc, name, names) {
            Ok(nearest) => nearest,
            Err(_) => {
                self.fail();
                None
            }
        };
        if let Some(name) = nearest {
            self.say(form, &[Piece::Name(name)]);
        }
        nearest
    }

    fn end(&mut self) {
        let line = mem::replace(&mut self.line, Text::new(self.alloc));
        if line.whole().is_err() || self.list.push(line).is_err() {
            self.fail();
        }
    }
}

// How the name in a place of several goes on.
fn name_form(place: usize) -> &'static str {
    if place == 0 { ": %" } else { " %" }
}
