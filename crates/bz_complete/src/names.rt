//! Channels by name.

ghost use Rattle.std.specs.Prelude.{◌≡◌, ◌-◌, ◌<◌, ◌^◌, length, map, position, reverse, bytes_eq, IfOk, IfSome};
ghost use Rattle.bz_complete.specs.Named.{IsNamed, label, labels_from, no_names, port_form, table_of};
ghost use Rattle.bz_model.specs.Names.{external};
ghost use Rattle.bz_model.specs.Traces.{name_form};

use bz_flat::Flat;
use bz_model::{NameRow, Port};
use bz_source::Survey;
use bz_text::NameForm;
use std::alloc::{AllocError, Global};
use std::marker::Model;

/// What the channels of a net are called, in name form: its ports, and what the text calls each channel, which may be nothing.
#[derive(Drop)]
pub(crate) struct ChanNames {
    ports: NameRow,
    labels: NameRow,
    // The same from the last one to the first.
    back: NameRow,
    count: usize,
}

impl Model for ChanNames {
    ghost use Rattle.std.specs.Prelude.{◌≡◌, ◌<◌, ◌^◌, length, reverse};
    ghost use Rattle.bz_complete.specs.Named.{ChanTable};

    ghost Value = { ChanTable };

    ghost view = { λ n. record { ports = n.ports; labels = n.labels } };

    ghost invariant = { λ n. (n.back ≡ reverse n.labels) × (n.count ≡ length n.labels) × (length n.labels < 2 ^ 32) × (length n.ports < 2 ^ 32) };
}

impl ChanNames {
    /// No names.
    pub(crate) fn none(alloc: Global) -> Result<ChanNames, AllocError>
        ensures { IfOk result (λ names. names ≡ no_names) }
    {
        Ok(ChanNames {
            ports: NameRow::new(alloc, Vec::new(alloc))?,
            labels: NameRow::new(alloc, Vec::new(alloc))?,
            back: NameRow::new(alloc, Vec::new(alloc))?,
            count: 0,
        })
    }

    /// Those of a net, with what was found in its text.
    pub(crate) fn of(alloc: Global, survey: &Survey, flat: &Flat) -> Result<ChanNames, AllocError>
        ensures { IfOk result (λ names. names ≡ table_of flat.now.wiring survey.now) }
    {
        let count = flat.chan_count();
        let mut back = labels_of(alloc, survey, count)?;
        back.reverse();
        Ok(ChanNames {
            ports: NameRow::new(alloc, forms_of(alloc, flat.ports())?)?,
            labels: NameRow::new(alloc, labels_of(alloc, survey, count)?)?,
            back: NameRow::new(alloc, back)?,
            count: count as usize,
        })
    }

    /// The channel that a name means, if it means one.
    pub(crate) fn chan(&self, word: &[u8]) -> Option<u32>
        ensures { IfSome result (IsNamed self.now word.now) }
    {
        if word.is_empty() {
            return None;
        }
        if let Some(place) = self.ports.place(word) {
            return Some(place as u32 + 1);
        }
        let (first, last) = self.ends(word)?;
        if first == last {
            Some(first as u32 + 1)
        } else {
            None
        }
    }

    /// Two channels that the text calls so, where no port has the name.
    pub(crate) fn both(&self, word: &[u8]) -> Option<(usize, usize)> {
        if word.is_empty() || self.ports.place(word).is_some() {
            return None;
        }
        let (first, last) = self.ends(word)?;
        if first != last {
            Some((first.saturating_add(1), last.saturating_add(1)))
        } else {
            None
        }
    }

    // The first and the last place, from 0, of a name among the labels.
    fn ends(&self, word: &[u8]) -> Option<(usize, usize)>
        ensures first { IfSome result (λ r. position (bytes_eq word.now) self.now.labels ≡ Some r.0) }
        ensures last { IfSome result (λ r. position (bytes_eq word.now) (reverse self.now.labels) ≡ Some (length self.now.labels - 1 - r.1)) }
        ensures within { IfSome result (λ r. (r.0 < length self.now.labels) × (r.1 < length self.now.labels)) }
    {
        let first = self.labels.place(word)?;
        let behind = self.back.place(word)?;
        Some((first, self.count - 1 - behind))
    }
}

/// Whether a line of a text names a channel otherwise than by its number.
pub(crate) fn has_names(text: &[u8]) -> bool {
    for line in text.split(|byte| *byte == b'\n') {
        if let Some(word) = line.split(|byte| *byte == b' ').nth(1) {
            if !word.iter().all(|byte| byte.is_ascii_digit()) {
                return true;
            }
        }
    }
    false
}

// The names of ports in name form.
fn forms_of(alloc: Global, ports: &[Port]) -> Result<Vec<Vec<u8>>, AllocError>
    ensures { IfOk result (λ forms. map (λ form. form.items) forms.items ≡ map port_form (map external ports.now)) }
{
    let mut forms = Vec::with_capacity(alloc, ports.len())?;
    for port in ports {
        forms.push(form_of(alloc, &port.name)?)?;
    }
    Ok(forms)
}

// What the text calls the first channels, in name form.
fn labels_of(alloc: Global, survey: &Survey, count: u32) -> Result<Vec<Vec<u8>>, AllocError>
    ensures { IfOk result (λ labels. map (λ form. form.items) labels.items ≡ labels_from survey.now 1 count) }
{
    let mut labels = Vec::with_capacity(alloc, count as usize)?;
    for place in 0..count {
        labels.push(label_of(alloc, survey, place + 1)?)?;
    }
    Ok(labels)
}

// What the text calls a channel, in name form, or nothing.
fn label_of(alloc: Global, survey: &Survey, chan: u32) -> Result<Vec<u8>, AllocError>
    ensures { IfOk result (λ form. form.items ≡ label survey.now chan) }
{
    match survey.chan_name(chan) {
        Some(name) => form_of(alloc, name),
        None => Ok(Vec::new(alloc)),
    }
}

fn form_of(alloc: Global, name: &[u8]) -> Result<Vec<u8>, AllocError>
    ensures { IfOk result (λ form. form.items ≡ name_form name.now) }
{
    let form = format!(in alloc; "{}", NameForm(name))?;
    Ok(form.into_bytes())
}
