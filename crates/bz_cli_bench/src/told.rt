//! What is told of a play beside its verdict.

use crate::case::{Short, Told};
use crate::ended::Unlike;
use crate::journal::{last_word, line_of};
use crate::playing::{Played, port_of};
use crate::rounding::put_rounds;
use crate::setting::Setting;
use crate::unlike::is_pull;
use crate::verdict::Verdict;
use bz_model::numbered;
use bz_text::Text;
use bz_trace_text::counts;
use bz_view::{Seen, put_rest};
use std::alloc::AllocError;

/// What is told of a play, which passed with other values than another one where that is handed in.
pub(crate) fn told_of(
    setting: Setting<'_>,
    played: &Played,
    unlike: Option<Unlike>,
) -> Result<Told, AllocError> {
    let mut told = Told::none(setting.trial.alloc);
    match tell(setting, played, unlike, &mut told) {
        Ok(()) => Ok(told),
        Err(fault) => Err(fault),
    }
}

// Tells that. Nothing is told before.
fn tell(
    setting: Setting<'_>,
    played: &Played,
    unlike: Option<Unlike>,
    told: &mut Told,
) -> Result<(), AllocError> {
    let journal = played.stepping.net().journal();
    let totals = counts(journal);
    told.line = journal.len().saturating_add(1);
    told.blessing = setting.at.blessing;
    told.fired = totals.fired;
    told.words = totals.host;
    if let Some(unlike) = unlike {
        return tell_place(setting, played, unlike.port, unlike.place, told);
    }
    match played.verdict {
        Verdict::Passed => Ok(()),
        Verdict::Differs { port, place, .. } => tell_place(setting, played, port, place, told),
        Verdict::Extra { port, .. } => tell_port(setting, port, told),
        Verdict::Stuck { group } => {
            tell_short(setting, played, group, told)?;
            tell_waits(setting, played, told)
        }
        Verdict::Spins { from, group } => {
            tell_short(setting, played, group, told)?;
            tell_rounds(setting, played, from, told)
        }
        Verdict::Spent => tell_rounds(setting, played, last_word(journal), told),
    }
}

// Tells the port, and the line of the trace.
fn tell_place(
    setting: Setting<'_>,
    played: &Played,
    port: u32,
    place: usize,
    told: &mut Told,
) -> Result<(), AllocError> {
    let is_pull = is_pull(setting.opened.flat(), port);
    told.line = line_of(played.stepping.net().journal(), port, is_pull, place);
    tell_port(setting, port, told)
}

// Tells the port.
fn tell_port(setting: Setting<'_>, port: u32, told: &mut Told) -> Result<(), AllocError> {
    told.port.extend_from_slice(name_of(setting, port))
}

fn name_of<'s>(setting: Setting<'s>, port: u32) -> &'s [u8] {
    match numbered(setting.opened.flat().ports(), port) {
        Some(port) => port.name.as_slice(),
        None => &[],
    }
}

// Tells what is short of a group of lines and those above it.
fn tell_short(
    setting: Setting<'_>,
    played: &Played,
    group: usize,
    told: &mut Told,
) -> Result<(), AllocError> {
    for place in 0..played.tallies.len() {
        tell_short_at(setting, played, group, port_of(place), told)?;
    }
    Ok(())
}

// Tells what is short at a port, if something is.
fn tell_short_at(
    setting: Setting<'_>,
    played: &Played,
    group: usize,
    port: u32,
    told: &mut Told,
) -> Result<(), AllocError> {
    let stream = numbered(&setting.plan.streams, port);
    let (Some(stream), Some(tally)) = (stream, numbered(&played.tallies, port)) else {
        return Ok(());
    };
    if stream.is_done(group, tally) {
        return Ok(());
    }
    told.short.push(Short {
        port: Vec::from_slice(setting.trial.alloc, name_of(setting, port))?,
        begun: tally.begun.len(),
        ended: tally.ended.len(),
        due: stream.due_by(group),
    })?;
    Ok(())
}

// Tells who waits for whom.
fn tell_waits(setting: Setting<'_>, played: &Played, told: &mut Told) -> Result<(), AllocError> {
    let mut text = Text::new(setting.trial.alloc);
    let net = played.stepping.net();
    put_rest(Seen::of(net.core(), setting.opened.survey()), &mut text);
    tell_squeezed(&text, told)
}

// Tells a text with one blank where several stand together.
fn tell_squeezed(text: &Text, told: &mut Told) -> Result<(), AllocError> {
    let mut was_blank = false;
    for byte in text.whole()? {
        let is_blank = *byte == b' ';
        if !is_blank || !was_blank {
            told.why.push(*byte)?;
        }
        was_blank = is_blank;
    }
    Ok(())
}

// Tells what has gone round after so many entries.
fn tell_rounds(
    setting: Setting<'_>,
    played: &Played,
    from: usize,
    told: &mut Told,
) -> Result<(), AllocError> {
    told.from = from.saturating_add(1);
    let net = played.stepping.net();
    let seen = Seen::of(net.core(), setting.opened.survey());
    let mut text = Text::new(setting.trial.alloc);
    match put_rounds(seen, net.journal(), from, &mut text) {
        Ok(()) => tell_text(&text, told),
        Err(fault) => Err(fault),
    }
}

// Tells a text.
fn tell_text(text: &Text, told: &mut Told) -> Result<(), AllocError> {
    told.why.extend_from_slice(text.whole()?)
}
