//! Parts that have no net.

use crate::component_faults::part_names;
use crate::end_faults::explain_ends;
use crate::site::NetlistText;
use crate::wired::Wired;
use bz_elab::ElabError;
use bz_explain_notes::Notes;
use bz_view::Piece::{Count, Name};

/// The notes of one reason why a part has no net.
pub(crate) fn explain_refusal(
    notes: &mut Notes,
    netlist: NetlistText<'_>,
    asked: &[u8],
    error: ElabError,
    wired: Option<&Wired>,
) {
    match error {
        ElabError::NoPart => explain_no_part(notes, netlist, asked),
        ElabError::Recursive(number) => explain_recursive(notes, netlist, number),
        ElabError::TwoEnds(chan) | ElabError::LooseEnd(chan) | ElabError::PortSense(chan) => {
            if let Some(wired) = wired {
                explain_ends(notes, netlist, wired, error, chan);
            }
        }
        ElabError::UnknownComponent(number, position)
        | ElabError::BadParameter(number, position)
        | ElabError::PortCount(number, position)
        | ElabError::BadChannel(number, position)
        | ElabError::KindMismatch(number, position)
        | ElabError::WidthMismatch(number, position) => {
            if let Some(site) = netlist.site(number, position) {
                site.explain(notes, error);
            }
        }
        ElabError::TooDeep => notes.say(
            "found: a path of more than 64 instances, each within the one before\n\
            expected: at most 64 instances within one another",
            &[],
        ),
        ElabError::TooBig => notes.say(
            "found: more components, channels or ends than a net may have\n\
            expected: at most 1000000 components, 2000000 channels and 4000000 ends of components",
            &[],
        ),
        ElabError::Memory => {}
    }
}

// No part has the name asked for.
fn explain_no_part(notes: &mut Notes, netlist: NetlistText<'_>, asked: &[u8]) {
    let names = notes.gathered(part_names(notes.alloc(), netlist.parts));
    notes.put("found: part %\nexpected: ", &[Name(asked)]);
    if names.is_empty() {
        notes.say("the name of a part, of which the text has none", &[]);
    } else {
        notes.say_one_of(Count(names.len(), "part"), &names, asked);
    }
}

// A part that reaches itself.
fn explain_recursive(notes: &mut Notes, netlist: NetlistText<'_>, number: usize) {
    netlist.put_part(notes, number);
    notes.say(
        "found: an instance of part % within itself\n\
        expected: instances of other parts, which have none of this one within them",
        &[Name(netlist.name(number))],
    );
}
