//! What goes round in a net: its Loops and Whiles, and the Variables on which they go.

use bz_cover::{Coverage, count_entries};
use bz_model::{Entry, Kind, Move, Value};
use bz_text::Text;
use bz_view::{Piece, Seen};
use std::alloc::{AllocError, Global};

/// Adds a line for each Loop and While that went round after so many entries, with how often, and for each Variable that was read or
/// written there, with what it took last.
pub(crate) fn put_rounds(
    seen: Seen<'_>,
    entries: &[Entry],
    from: usize,
    text: &mut Text,
) -> Result<(), AllocError> {
    let mut coverage = Coverage::new(text.alloc(), seen.net)?;
    count_entries(&mut coverage, entries.get(from..).unwrap_or(&[]));
    let values = last_values(text.alloc(), seen, entries)?;
    for (comp, value) in (1..).zip(values.iter()) {
        put_comp(seen, comp, *value, &coverage, text);
    }
    Ok(())
}

// What each component took last.
fn last_values(
    alloc: Global,
    seen: Seen<'_>,
    entries: &[Entry],
) -> Result<Vec<Option<Value>>, AllocError> {
    let mut values = vec![in alloc; None::<Value>; seen.net.comp_count() as usize]?;
    for entry in entries {
        if let Entry::Fired {
            comp,
            mv: Move::Take,
            value: Some(value),
            ..
        } = *entry
        {
            if let Some(last) = values.get_mut((comp as usize).saturating_sub(1)) {
                *last = Some(value);
            }
        }
    }
    Ok(values)
}

// Adds the line of a component, if it has one.
fn put_comp(seen: Seen<'_>, comp: u32, value: Option<Value>, coverage: &Coverage, text: &mut Text) {
    let Some(site) = seen.net.comp(comp) else {
        return;
    };
    match (&site.kind, value) {
        (Kind::Loop, _) => put_times(seen, comp, coverage.of_port(seen.net, comp, 2), text),
        (Kind::While, _) => put_times(seen, comp, coverage.of_port(seen.net, comp, 3), text),
        (Kind::Variable | Kind::FalseVariable, Some(value)) if coverage.of(comp) > 0 => {
            text.say("% took % last\n", &[seen.comp(comp), Piece::Wide(value)]);
        }
        _ => {}
    }
}

// Adds that a component went round, if it did.
fn put_times(seen: Seen<'_>, comp: u32, times: u64, text: &mut Text) {
    if times > 0 {
        let times = Piece::Count(times as usize, "time");
        text.say("% went round %\n", &[seen.comp(comp), times]);
    }
}
