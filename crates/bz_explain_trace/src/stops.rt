//! The line at which no run goes on.

ghost use Rattle.std.specs.Prelude.{◌≡◌};

use crate::clashes::explain_clash;
use crate::firings::{Firing, explain_firing, explain_rest};
use crate::items::LineAt;
use crate::replies::{Command, explain_refused, explain_reply, reply_of};
use crate::scene::{Scene, phase_of};
use crate::suspect::Suspect;
use bz_explain_notes::Notes;
use bz_model::{Entry, NetError};
use bz_net::{Core, Play};
use bz_source::Survey;
use bz_trace_text::{LineNames, clash_at, line_at};
use std::alloc::AllocError;

/// Says why no run has a line, by its number, where a net has played the lines before it.
pub(crate) fn explain_line(
    notes: &mut Notes,
    net: &mut Play,
    survey: &Survey,
    suspect: Suspect<'_>,
    number: usize,
)
    ensures { net.new.wiring ≡ net.old.wiring }
{
    let line = LineAt::of(suspect, number);
    match line_entry(notes, net, line) {
        Ok(Some(entry)) => {
            if explain_entry(notes, net, survey, line, entry).is_none() {
                notes.fail();
            }
        }
        Ok(None) => {
            let before = clash_count(line.before());
            net.list_clashes();
            let due = net.clashes().get(before).copied();
            let found = match clash_at(line.rest) {
                Some((found, _)) => Some(found),
                None => None,
            };
            explain_clash(notes, &Scene::of(net.core(), survey, line), found, due);
        }
        Err(_) => notes.fail(),
    }
}

/// Says what can move in a net at the end of a run.
pub(crate) fn explain_end<'s>(notes: &mut Notes, net: &'s Core, survey: &'s Survey) {
    let nothing = Suspect {
        netlist: b"",
        trace: b"",
        first: 1,
        file: None,
    };
    notes.put("the end of the trace\nfound: what can move: ", &[]);
    Scene::of(net, survey, LineAt::of(nothing, 1)).put_moves(notes, None);
    notes.say("\nexpected: a run that ends at rest", &[]);
}

// The entry of a line, if it is that of one.
fn line_entry(notes: &Notes, net: &Play, line: LineAt<'_>) -> Result<Option<Entry>, AllocError> {
    let names = net.names().dup(notes.alloc())?;
    match line_at(&LineNames::new(notes.alloc(), &names), line.rest) {
        Some((entry, _)) => Ok(Some(entry)),
        None => Ok(None),
    }
}

// How many of these lines are those of clashes.
fn clash_count(lines: &[u8]) -> usize {
    lines
        .split(|byte| *byte == b'\n')
        .filter(|line| line.starts_with(b"clash "))
        .count()
}

// Says why no run has an entry. The net goes on by it where it is a command.
fn explain_entry(
    notes: &mut Notes,
    net: &mut Play,
    survey: &Survey,
    line: LineAt<'_>,
    entry: Entry,
) -> Option<()>
    ensures { net.new.wiring ≡ net.old.wiring }
{
    match entry {
        Entry::Fired {
            who: _,
            comp,
            port: _,
            chan,
            mv,
            value,
        } => {
            let firing = Firing {
                comp,
                chan,
                mv,
                value,
            };
            explain_firing(notes, &Scene::of(net.core(), survey, line), firing);
        }
        Entry::Host {
            who,
            verb,
            port,
            value,
            reply,
        } => {
            let command = Command {
                verb,
                port,
                value,
                reply,
            };
            let phase = phase_of(net.core(), port)?;
            let due = reply_of(net, who, verb, port, value)?;
            let scene = Scene::of(net.core(), survey, line);
            match due {
                Ok(due) => explain_reply(notes, &scene, command, phase, due),
                Err(NetError::Memory) => return None,
                Err(error) => explain_refused(notes, &scene, command, error),
            }
        }
        Entry::Rested { who: _ } => {
            let comp = net.core().next_ready(1)?;
            explain_rest(notes, &Scene::of(net.core(), survey, line), comp);
        }
    }
    Some(())
}
