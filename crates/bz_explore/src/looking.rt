//! What can come next, and how far the net is.

use crate::answer::Answer;
use crate::commands::Call;
use crate::saving::since_of;
use crate::table::Command;
use crate::things::asked;
use crate::totals::{put_counts, put_unmoved, put_values};
use bz_explore_moves::{put_moves, put_next};
use bz_explore_net::{Stepping, busy_chans};
use bz_flat::FlatComp;
use bz_kind_rows::row_of;
use bz_model::{Entry, Move, Value};
use bz_since::{NoSince, put_since};
use bz_source::{Survey, put_comp, put_label};
use bz_text::Text;
use bz_trace_text::counts;
use bz_view::{
    Piece, Seen, Thing, chan_at, gathered, port_count, port_of, put_all_waits, put_chain, put_held,
    put_phase, put_stuck, put_waits,
};

/// How far a net is.
const TOTALS: &str = "\
trace: % fired, % host, % rest
components: %, % can move
channels: %, % not idle
clashes:";

/// Answers a command that looks at the net and moves nothing.
pub(crate) fn look(stepping: &Stepping, survey: &Survey, call: Call<'_>, answer: &mut Answer) {
    let seen = Seen::of(stepping.net().core(), survey);
    match (call.form.command, call.first) {
        (Command::Moves, _) if answer.is_object => put_next(seen.net, &mut answer.members),
        (Command::Moves, _) => put_moves(seen.net, survey, &mut answer.text),
        (Command::Values, _) => put_values(stepping, seen, &mut answer.text),
        (Command::CountsNever, _) => put_unmoved(stepping, seen, &mut answer.text),
        (Command::Counts, _) => put_counts(stepping, seen, call.number(), &mut answer.text),
        (Command::WaitsSince, _) => put_first(stepping, survey, &mut answer.text),
        (Command::WaitsAll, _) => put_all_waits(seen, &mut answer.text),
        (Command::Waits, None) => put_waits(seen, &mut answer.text),
        (_, None) => put_totals(stepping, seen, &mut answer.text),
        (command, Some(_)) => {
            let is_asked_for = matches!(command, Command::Waits);
            for thing in &asked(seen, call, answer) {
                put_thing(stepping, seen, is_asked_for, *thing, &mut answer.text);
            }
        }
    }
}

// Adds since which line something can never move again, and what it is there.
fn put_first(stepping: &Stepping, survey: &Survey, text: &mut Text) {
    let net = stepping.net();
    let lines = net.journal().len().saturating_add(1);
    match since_of(text.alloc(), stepping) {
        Ok(Some(since)) => {
            let lines = lines.saturating_add(net.clashes().len());
            put_since(&since, net.journal(), lines, text);
            put_stuck(Seen::of(since.net.core(), survey), text);
        }
        Ok(None) | Err(NoSince::NotRun) => text.put("nothing is stuck\n"),
        Err(NoSince::Memory) => text.lose(),
    }
}

// How a component or a channel stands, or on what it hangs.
fn put_thing(stepping: &Stepping, seen: Seen<'_>, hangs: bool, thing: Thing, text: &mut Text) {
    match thing {
        Thing::Comp(comp) if hangs => put_chain(seen, comp, text),
        Thing::Comp(comp) => put_state(stepping, seen, comp, text),
        Thing::Chan(chan) if hangs => put_held(seen, chan, text),
        Thing::Chan(chan) => put_chan_state(seen, chan, text),
    }
}

// Adds how far the net is.
fn put_totals(stepping: &Stepping, seen: Seen<'_>, text: &mut Text) {
    let (flat, net) = (stepping.flat(), stepping.net());
    let counts = counts(net.journal());
    let busy = gathered(busy_chans(text.alloc(), flat, net), text);
    let totals = [
        Piece::Number(counts.fired),
        Piece::Number(counts.host),
        Piece::Number(counts.rests),
        Piece::Wide(flat.comp_count().into()),
        Piece::Number(seen.count_ready()),
        Piece::Wide(flat.chan_count().into()),
        Piece::Number(busy.len()),
    ];
    text.say(TOTALS, &totals);
    if net.clashes().is_empty() {
        text.put(" none");
    }
    for comp in net.clashes() {
        text.say(" %", &[Piece::Wide((*comp).into())]);
    }
    let next = if stepping.next() > flat.comp_count() {
        1
    } else {
        stepping.next()
    };
    let last = [
        Piece::Wide(next.into()),
        Piece::Wide(stepping.picker().seed().into()),
    ];
    text.say("\nrun goes on at component %\nseed %\n", &last);
}

// Adds a component's place, the value that it keeps, and its ports with what is due there.
fn put_state(stepping: &Stepping, seen: Seen<'_>, comp: u32, text: &mut Text) {
    let Some(site) = seen.net.comp(comp) else {
        return;
    };
    if let Some(at) = seen.survey.comp(comp) {
        let _ = put_comp(text, comp, site, at);
        let _ = put_label(text, seen.label(Thing::Comp(comp)));
        text.put("\n");
    }
    if row_of(&site.kind).is_variable {
        let kept = kept(stepping.net().journal(), comp);
        text.say("keeps %\n", &[Piece::Wide(kept)]);
    }
    for port in 1..=port_count(site) {
        put_port_state(seen, site, comp, port, text);
    }
}

// The value that a variable took last, 0 at first.
fn kept(journal: &[Entry], variable: u32) -> Value {
    for entry in journal.iter().rev() {
        match entry {
            Entry::Fired {
                comp,
                port: 1,
                mv: Move::Take,
                value: Some(value),
                ..
            } if *comp == variable => return *value,
            _ => {}
        }
    }
    0
}

// What a channel carries.
fn put_carried(seen: Seen<'_>, chan: u32, text: &mut Text) {
    let carried = Piece::Carried(seen.chan(chan));
    text.say("channel % %", &[seen.named_chan(chan), carried]);
}

// The phase of a channel, and who stands at its ends.
fn put_chan_state(seen: Seen<'_>, chan: u32, text: &mut Text) {
    put_carried(seen, chan, text);
    let phase = Piece::Phase(seen.phase(chan));
    let (active, passive) = (seen.holder(chan, false), seen.holder(chan, true));
    text.say(", %: % asks %\n", &[phase, active, passive]);
}

fn put_port_state(seen: Seen<'_>, site: &FlatComp, comp: u32, at: u32, text: &mut Text) {
    let (net, chan) = (seen.net, chan_at(site, at));
    let (number, place) = (Piece::Wide(comp.into()), Piece::Wide(at.into()));
    text.say("%.% %", &[number, place, port_of(site, at)]);
    text.fill(18);
    put_carried(seen, chan, text);
    text.fill(40);
    put_phase(text, seen.phase(chan));
    if let Some(mv) = net.due(comp, at) {
        text.fill(54);
        text.say("due: %", &[Piece::Text(mv.word())]);
        text.put(if net.can_fire(comp, at) {
            ""
        } else {
            ", waits"
        });
    }
    text.put("\n");
}
