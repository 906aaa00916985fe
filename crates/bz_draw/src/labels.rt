//! What the text knows of components and channels beside their numbers, in labels and where one points.

use crate::piece::{Piece, RECORD, put_cut};
use crate::view::Scene;
use bz_flat::FlatComp;
use bz_source::SourceAt;
use bz_text::{Piece as Part, Text};

/// The most letters of the second line of a component.
const MOST_LETTERS: usize = 20;

/// Adds the second line of a component's label, if the component has one: a variable's name, an operation, a constant.
pub(crate) fn put_detail(text: &mut Text, s: Scene<'_>, number: u32, comp: &FlatComp) {
    let mut line = Text::new(text.alloc());
    if let Some(name) = s.survey.comp_name(number) {
        line.put_pieces(&[Part::Name(name)]);
    }
    if let Some(detail) = s.survey.comp_detail(number, &comp.kind) {
        if bz_source::put_detail(&mut line, detail).is_err() {
            line.lose();
        }
    }
    match line.whole() {
        Ok([]) => {}
        Ok(line) => {
            text.put("\\n");
            put_cut(text, line, MOST_LETTERS, RECORD);
        }
        Err(_) => text.lose(),
    }
}

/// Adds a name, where there is one.
pub(crate) fn put_name(text: &mut Text, name: Option<&[u8]>) {
    if let Some(name) = name {
        text.say(" %", &[Piece::Label(name)]);
    }
}

/// Adds a place in a source, where there is one.
pub(crate) fn put_source(text: &mut Text, source: Option<SourceAt<'_>>) {
    if let Some(at) = source {
        let (line, column) = (
            Piece::Number(at.line as usize),
            Piece::Number(at.column as usize),
        );
        text.say(" (%:%:%)", &[Piece::Label(at.file), line, column]);
    }
}
