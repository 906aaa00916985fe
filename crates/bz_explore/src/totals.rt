//! What the trace so far amounts to: the values that are kept and under way, and how many handshakes have ended.

use bz_explore_net::Stepping;
use bz_kind_rows::row_of;
use bz_model::{Entry, Move, Phase, Reply, Value, Verb};
use bz_text::{Piece as Part, Text};
use bz_view::{HALVES, Piece, Seen, Thing, gathered, put_left_out, put_phase};
use std::alloc::{AllocError, Global};

/// The column of what is told of a component or a channel.
const COLUMN: usize = 26;

/// Adds what each variable keeps, and the value that is on each channel.
pub(crate) fn put_values(stepping: &Stepping, seen: Seen<'_>, text: &mut Text) {
    let kept = gathered(values_kept(text.alloc(), stepping), text);
    let mut count = 0usize;
    for place in 0..kept.len() {
        if is_variable(seen, number_at(place)) {
            let value = kept.get(place).copied().unwrap_or(0);
            put_kept(seen, number_at(place), value, text);
            count = count.saturating_add(1);
        }
    }
    for chan in 1..=seen.net.chan_count() {
        if has_value(seen.phase(chan)) {
            put_carried(seen, chan, text);
            count = count.saturating_add(1);
        }
    }
    if count == 0 {
        text.put("no variable, and no value on a channel\n");
    }
}

fn put_kept(seen: Seen<'_>, comp: u32, value: Value, text: &mut Text) {
    text.say("%", &[seen.comp(comp)]);
    text.fill(COLUMN);
    text.put_pieces(&[
        Part::Bytes(b"keeps "),
        Part::Number(value),
        Part::Bytes(b"\n"),
    ]);
}

fn put_carried(seen: Seen<'_>, chan: u32, text: &mut Text) {
    text.say("channel %", &[seen.named_chan(chan)]);
    text.fill(COLUMN);
    put_phase(text, seen.phase(chan));
    text.put("\n");
}

fn has_value(phase: Phase) -> bool {
    matches!(phase, Phase::Asked(Some(_)) | Phase::Replied(Some(_)))
}

fn is_variable(seen: Seen<'_>, comp: u32) -> bool {
    match seen.net.comp(comp) {
        Some(site) => row_of(&site.kind).is_variable,
        None => false,
    }
}

// The number of what stands at a place.
fn number_at(place: usize) -> u32 {
    u32::try_from(place).unwrap_or(u32::MAX).saturating_add(1)
}

// The place of a number.
fn place_of(number: u32) -> usize {
    (number as usize).saturating_sub(1)
}

// For each component the value that it took last at its first port, 0 at first.
fn values_kept(alloc: Global, stepping: &Stepping) -> Result<Vec<Value>, AllocError> {
    let mut kept = vec![in alloc; 0; stepping.flat().comp_count() as usize]?;
    for entry in stepping.net().journal() {
        if let Entry::Fired {
            comp,
            port: 1,
            mv: Move::Take,
            value: Some(value),
            ..
        } = entry
        {
            if let Some(kept) = kept.get_mut(place_of(*comp)) {
                *kept = *value;
            }
        }
    }
    Ok(kept)
}

/// How many handshakes have ended on each channel, and which components have moved.
#[derive(Drop)]
struct Counts {
    ended: Vec<u64>,
    moved: Vec<bool>,
}

impl Counts {
    fn of(alloc: Global, stepping: &Stepping) -> Result<Counts, AllocError> {
        let flat = stepping.flat();
        let mut counts = Counts {
            ended: vec![in alloc; 0; flat.chan_count() as usize]?,
            moved: vec![in alloc; false; flat.comp_count() as usize]?,
        };
        for entry in stepping.net().journal() {
            counts.add(*entry);
        }
        Ok(counts)
    }

    // Adds what an entry shows: a handshake ends where the end that began it has the reply.
    fn add(&mut self, entry: Entry) {
        match entry {
            Entry::Fired { comp, chan, mv, .. } => {
                if let Some(moved) = self.moved.get_mut(place_of(comp)) {
                    *moved = true;
                }
                if mv == Move::Got {
                    self.end(chan);
                }
            }
            Entry::Host {
                verb: Verb::Collect,
                port,
                reply: Reply::Done | Reply::Value(_),
                ..
            } => self.end(port),
            _ => {}
        }
    }

    fn end(&mut self, chan: u32) {
        if let Some(ended) = self.ended.get_mut(place_of(chan)) {
            *ended = ended.saturating_add(1);
        }
    }

    // The channels on which a handshake has ended, those with the most first.
    fn ranked(&self, alloc: Global) -> Result<Vec<u32>, AllocError> {
        let mut ranks = Vec::new(alloc);
        for (place, ended) in self.ended.iter().enumerate() {
            if *ended > 0 {
                ranks.push((u64::MAX - *ended, number_at(place)))?;
            }
        }
        ranks.sort()?;
        let mut chans = Vec::new(alloc);
        for (_, chan) in &ranks {
            chans.push(*chan)?;
        }
        Ok(chans)
    }

    fn put_idle(&self, seen: Seen<'_>, text: &mut Text) {
        let idle = self.moved.iter().filter(|moved| !**moved).count();
        let counts = [
            Piece::Number(idle),
            Piece::Wide(seen.net.comp_count().into()),
        ];
        text.say("components that never moved: % of %\n", &counts);
    }
}

/// Adds how many handshakes have ended, for at most so many channels, those with the most first, and how many components have
/// never moved.
pub(crate) fn put_counts(stepping: &Stepping, seen: Seen<'_>, most: Option<u64>, text: &mut Text) {
    let alloc = text.alloc();
    let Ok(counts) = Counts::of(alloc, stepping) else {
        text.lose();
        return;
    };
    let chans = gathered(counts.ranked(alloc), text);
    let most = usize::try_from(most.unwrap_or(HALVES.most as u64)).unwrap_or(usize::MAX);
    for chan in chans.iter().take(most) {
        let ended = counts.ended.get(place_of(*chan)).copied().unwrap_or(0);
        text.say("channel %", &[seen.named_chan(*chan)]);
        text.fill(COLUMN);
        text.say("%\n", &[Piece::Count(ended as usize, "handshake")]);
    }
    put_left_out(chans.len().saturating_sub(most), ".. % more\n", text);
    counts.put_idle(seen, text);
}

/// Adds the components that have never moved, and how many they are.
pub(crate) fn put_unmoved(stepping: &Stepping, seen: Seen<'_>, text: &mut Text) {
    let Ok(counts) = Counts::of(text.alloc(), stepping) else {
        text.lose();
        return;
    };
    for (place, moved) in counts.moved.iter().enumerate() {
        if !*moved {
            text.say("%\n", &[seen.comp(number_at(place))]);
        }
    }
    counts.put_idle(seen, text);
}
