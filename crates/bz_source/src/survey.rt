//! Where everything in a net stands in its text.

ghost use Rattle.std.specs.Prelude.{◌≡◌, option_and_then, slice_get};
ghost use Rattle.std.specs.Option.{option_copied, option_map};
ghost use Rattle.bz_model.specs.Names.{numbered};
ghost use Rattle.bz_elab.specs.Paths.{component};
ghost use Rattle.bz_source.specs.Views.{chan_label, chan_mark, comp_label, comp_line_at, comp_mark, detail_of, detail_of_comp, label_of, line_at_of, mark_at, name_at_position, name_label, name_of_comp, path_at_of, source_at, source_at_position};

use crate::detail::{Detail, comp_detail, variable_name};
use crate::labels::{Label, SourceAt, SourceMark};
use crate::lines::PartLines;
use crate::path_at::PathAt;
use crate::places::Places;
use crate::text::{LineAt, comp_line_at};
use bz_breeze_records::{Component, Parts};
use bz_model::Kind;

/// Where everything in the net of a part stands in the text.
pub struct Survey {
    /// All parts of the text.
    pub parts: Parts,
    /// Of the net of one of them.
    pub places: Places,
    /// Of each part, in the order of the text.
    pub lines: Vec<PartLines>,
}

// By hand, so that who lets one go has one call to show and not all its parts.
impl Drop for Survey {
    fn drop(self) {
        let Survey {
            parts: _,
            places: _,
            lines: _,
        } = self;
    }
}

impl Survey {
    /// Where a component of the net stands, counted from 1, if there is such a component.
    pub fn comp(&self, comp: u32) -> Option<LineAt<'_>>
        ensures { option_map line_at_of result ≡ option_map (comp_line_at self.now.parts self.now.lines.items) (numbered self.now.places.comps comp) }
    {
        match self.places.comp(comp) {
            Some(place) => Some(comp_line_at(&self.parts, &self.lines, place)),
            None => None,
        }
    }

    /// The record of the text at a position, counted from 1, among the components of a part, which is counted from 0.
    pub fn record(&self, part: usize, position: usize) -> Option<&Component>
        ensures { option_copied result ≡ option_and_then (λ p. component p position) (slice_get self.now.parts part) }
    {
        let Some(part) = self.parts.list().get(part) else {
            return None;
        };
        if position == 0 {
            return None;
        }
        part.components.get(position - 1)
    }

    /// What a channel of the net, counted from 1, is called in the text.
    pub fn chan_name(&self, chan: u32) -> Option<&[u8]>
        ensures { option_copied result ≡ option_and_then (name_label self.now.lines.items) (numbered self.now.places.chans chan) }
    {
        match self.places.chan(chan) {
            Some(place) => self.name_label(place),
            None => None,
        }
    }

    /// The source that a channel of the net, counted from 1, comes from.
    pub fn chan_source(&self, chan: u32) -> Option<SourceAt<'_>>
        ensures { option_map source_at result ≡ option_and_then (chan_mark self.now.lines.items) (numbered self.now.places.chans chan) }
    {
        match self.places.chan(chan) {
            Some(place) => self.chan_mark(place),
            None => None,
        }
    }

    /// The source that a component of the net, counted from 1, comes from.
    pub fn comp_source(&self, comp: u32) -> Option<SourceAt<'_>>
        ensures { option_map source_at result ≡ option_and_then (comp_mark self.now.lines.items) (numbered self.now.places.comps comp) }
    {
        match self.places.comp(comp) {
            Some(place) => self.comp_mark(place),
            None => None,
        }
    }

    /// What a component of the net, counted from 1, is called: a variable by the first text among its parameters, where that
    /// is not empty. No other component has a name.
    pub fn comp_name(&self, comp: u32) -> Option<&[u8]>
        ensures { option_copied result ≡ option_and_then (name_of_comp self.now.parts) (numbered self.now.places.comps comp) }
    {
        match self.places.comp(comp) {
            Some(place) => self.name_of_comp(place),
            None => None,
        }
    }

    /// What else the parameters of a component of the net, counted from 1, say, the component being of this kind.
    pub fn comp_detail(&self, comp: u32, kind: &Kind) -> Option<Detail<'_>>
        ensures { option_map detail_of result ≡ option_and_then (detail_of_comp self.now.parts kind.now) (numbered self.now.places.comps comp) }
    {
        match self.places.comp(comp) {
            Some(place) => self.detail_at(place, kind),
            None => None,
        }
    }

    /// What the channel at a place of the net is called, and where it comes from.
    pub fn chan_label(&self, place: &PathAt) -> Label<'_>
        ensures { label_of result ≡ chan_label self.now.lines.items (path_at_of place.now) }
    {
        Label {
            name: self.name_label(place),
            source: self.chan_mark(place),
        }
    }

    /// The same of the component there.
    pub fn comp_label(&self, place: &PathAt) -> Label<'_>
        ensures { label_of result ≡ comp_label self.now.parts self.now.lines.items (path_at_of place.now) }
    {
        Label {
            name: self.name_of_comp(place),
            source: self.comp_mark(place),
        }
    }

    fn name_of_comp(&self, place: &PathAt) -> Option<&[u8]>
        ensures { option_copied result ≡ name_of_comp self.now.parts (path_at_of place.now) }
    {
        match self.record(place.part, place.position) {
            Some(component) => variable_name(component),
            None => None,
        }
    }

    fn name_label(&self, place: &PathAt) -> Option<&[u8]>
        ensures { option_copied result ≡ name_label self.now.lines.items (path_at_of place.now) }
    {
        let lines = self.lines.get(place.part)?;
        named(&lines.labels.names, place.position)
    }

    fn chan_mark(&self, place: &PathAt) -> Option<SourceAt<'_>>
        ensures { option_map source_at result ≡ chan_mark self.now.lines.items (path_at_of place.now) }
    {
        let lines = self.lines.get(place.part)?;
        marked(&lines.labels.channels, place.position)
    }

    fn comp_mark(&self, place: &PathAt) -> Option<SourceAt<'_>>
        ensures { option_map source_at result ≡ comp_mark self.now.lines.items (path_at_of place.now) }
    {
        let lines = self.lines.get(place.part)?;
        marked(&lines.labels.components, place.position)
    }

    fn detail_at(&self, place: &PathAt, kind: &Kind) -> Option<Detail<'_>>
        ensures { option_map detail_of result ≡ detail_of_comp self.now.parts kind.now (path_at_of place.now) }
    {
        let part = self.parts.list().get(place.part)?;
        let component = self.record(place.part, place.position)?;
        comp_detail(part, component, kind)
    }
}

// The source of the record at a position, counted from 1.
fn marked(marks: &[Option<SourceMark>], position: usize) -> Option<SourceAt<'_>>
    ensures { option_map source_at result ≡ source_at_position marks.now position }
{
    match at_position(marks, position) {
        Some(mark) => shown(mark),
        None => None,
    }
}

fn shown(mark: &Option<SourceMark>) -> Option<SourceAt<'_>>
    ensures { option_map source_at result ≡ option_map mark_at mark.now }
{
    match mark {
        Some(mark) => Some(mark.at()),
        None => None,
    }
}

// The name of the record at a position, counted from 1.
fn named(names: &[Option<Vec<u8>>], position: usize) -> Option<&[u8]>
    ensures { option_copied result ≡ name_at_position names.now position }
{
    match at_position(names, position) {
        Some(name) => bytes_of(name),
        None => None,
    }
}

fn bytes_of(name: &Option<Vec<u8>>) -> Option<&[u8]>
    ensures { option_copied result ≡ option_map (λ name. name.items) name.now }
{
    match name {
        Some(name) => Some(name.as_slice()),
        None => None,
    }
}

fn at_position<T>(items: &[T], position: usize) -> Option<&T>
    ensures { option_copied result ≡ numbered items.now position }
{
    if position == 0 {
        return None;
    }
    items.get(position - 1)
}
