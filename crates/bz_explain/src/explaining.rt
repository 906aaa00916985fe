//! What is told of each fault.

use crate::asked::Asked;
use crate::event_faults::{explain_event, explain_session};
use crate::findings::no_findings;
use crate::net_faults::explain_net;
use crate::part_faults::explain_part;
use crate::site::NetlistText;
use crate::spelling::explain_spelling;
use crate::told::told_of;
use crate::word_faults::explain_word;
use bz_breeze::parts_of;
use bz_cli_input::{Fault, Netlist};
use bz_explain_notes::{Findings, Notes};
use bz_sexpr::read_forest;
use bz_source::lines_of;
use std::alloc::Global;

/// What is told behind the line of a fault.
#[derive(Drop)]
pub struct Explained {
    /// Its notes. Where memory is wanting for all of them there are none.
    pub notes: Notes,
    /// The faults of the netlist beside it.
    pub others: Findings,
}

/// What is told behind the line of a fault.
pub fn explain(alloc: Global, fault: &Fault, asked: Asked<'_, '_>) -> Explained {
    let mut notes = Notes::on(alloc, asked.file);
    let others = explain_all(&mut notes, fault, asked);
    Explained { notes, others }
}

// The notes of a fault; and the faults beside it.
fn explain_all(notes: &mut Notes, fault: &Fault, asked: Asked<'_, '_>) -> Findings {
    if let Fault::Event { word, .. } = fault {
        asked.words.put_place(notes, *word);
    }
    match (told_of(fault), fault) {
        (Some(told), _) => notes.say(told, &[]),
        (None, Fault::Word(number)) => explain_word(notes, asked.words, *number),
        (None, Fault::Text(error)) => explain_spelling(notes, asked.netlist, *error),
        (None, _) => match explain_data(notes, fault, asked) {
            Ok(found) => return found,
            Err(Fault::Memory) => notes.fail(),
            Err(_) => {}
        },
    }
    no_findings(notes.alloc())
}

// A fault of what the text spells, which is read once more. The faults beside it, where it is one of a net.
fn explain_data(notes: &mut Notes, fault: &Fault, asked: Asked<'_, '_>) -> Result<Findings, Fault> {
    let (alloc, text) = (notes.alloc(), asked.netlist);
    let forest = read_forest(alloc, text)?;
    let data = forest.forms();
    if let Fault::Part(error) = fault {
        if let Some(place) = error.place() {
            explain_part(notes, text, data, place);
        }
        return Ok(no_findings(alloc));
    }
    let netlist = Netlist {
        parts: parts_of(alloc, data)?,
    };
    let name = netlist.name(alloc, asked.part)?;
    let (parts, opened) = (&netlist.parts, name.as_slice());
    match (fault, parts.find(opened)) {
        (Fault::Net { error, .. }, _) => {
            let lines = lines_of(alloc, text, data)?;
            let whole = NetlistText {
                alloc,
                file: asked.file,
                text,
                data,
                parts,
                lines: lines.as_slice(),
            };
            return match explain_net(notes, whole, opened, *error) {
                Ok(others) => Ok(others),
                Err(_error) => Err(Fault::Memory),
            };
        }
        (Fault::Event { error, word }, Some(part)) => {
            explain_event(notes, part, asked.words, *word, *error);
        }
        (Fault::Ended { error, who }, Some(part)) => {
            let (_, session) = who.parts();
            explain_session(notes, part, asked.words, usize::from(session), *error);
        }
        _ => {}
    }
    Ok(no_findings(alloc))
}
