//! A net in a state, and what its text calls everything in it.

ghost use Rattle.std.specs.Prelude.{◌≡◌, [], unwrap_or};
ghost use Rattle.bz_model.specs.Names.{port_name};
ghost use Rattle.bz_view.specs.Outside.{kind_at, kind_of};

use crate::piece::Piece;
use crate::shown::Shown;
use bz_flat::FlatComp;
use bz_kind_rows::{kind_word, port_at};
use bz_model::{Chan, ChanKind, Phase, Verb, numbered};
use bz_net::Core;
use bz_source::{Label, Survey};

/// A net in a state, and where all of it is from.
#[derive(Clone, Copy)]
pub struct Seen<'v> {
    pub net: &'v Core,
    pub survey: &'v Survey,
}

/// A component or a channel of a net.
#[derive(Clone, Copy)]
pub enum Thing {
    Comp(u32),
    Chan(u32),
}

impl<'v> Seen<'v> {
    /// This net, with where it is from.
    pub fn of(net: &'v Core, survey: &'v Survey) -> Seen<'v> {
        Seen { net, survey }
    }

    /// The same for lines in which it is written who waits for whom.
    pub fn shown(self) -> Shown<'v> {
        Shown::by_survey(self.net, self.survey)
    }

    /// How many components can move.
    pub fn count_ready(self) -> usize {
        self.shown().count_ready()
    }

    /// A channel, one without width where there is none of this number.
    pub fn chan(self, chan: u32) -> Chan {
        chan_of(self.net, chan)
    }

    /// The phase of a channel, idle where there is none of this number.
    pub fn phase(self, chan: u32) -> Phase {
        self.net.phase(chan)
    }

    /// The component at the passive or the active end of a channel, where a component is there and not the host.
    pub fn end(self, chan: u32, passive: bool) -> Option<u32> {
        self.shown().end(chan, passive)
    }

    /// Who is at an end of a channel: a component, or the host at the port.
    pub fn holder(self, chan: u32, passive: bool) -> Piece<'v> {
        match self.end(chan, passive) {
            Some(number) => self.comp(number),
            None => Piece::Host(self.port_name(chan)),
        }
    }

    /// The word of a component's kind, empty where there is none of this number.
    pub fn kind(self, comp: u32) -> &'static [u8] {
        self.shown().kind(comp)
    }

    /// A component, as it is called, with the copy in which it is.
    pub fn comp(self, number: u32) -> Piece<'v> {
        Piece::Comp(self.survey, self.kind(number), number)
    }

    /// How many ports a component has, 0 where there is none of this number.
    pub fn port_count(self, comp: u32) -> u32 {
        self.shown().port_count(comp)
    }

    /// A channel, as it is called.
    pub fn named_chan(self, chan: u32) -> Piece<'v> {
        Piece::Chan(self.survey, chan)
    }

    /// What the source has of a component or a channel.
    pub fn label(self, thing: Thing) -> Label<'v> {
        let survey = self.survey;
        let (name, source) = match thing {
            Thing::Comp(comp) => (survey.comp_name(comp), survey.comp_source(comp)),
            Thing::Chan(chan) => (survey.chan_name(chan), survey.chan_source(chan)),
        };
        Label { name, source }
    }

    /// The name of an external port, empty where there is none of this number.
    pub fn port_name(self, port: u32) -> &'v [u8] {
        port_name(self.net, port)
    }

    /// A word of the host as it is typed, `V` standing for its value.
    pub fn host_word(self, verb: Verb, port: u32) -> Piece<'v> {
        self.shown().host_word(verb, port)
    }
}

/// A channel, one without width where there is none of this number.
pub fn chan_of(net: &Core, chan: u32) -> Chan
    ensures { result.kind ≡ kind_at net.now.wiring.chans chan }
{
    match net.names().chan(chan) {
        Some(chan) => chan,
        None => Chan {
            kind: ChanKind::Sync,
            width: 0,
        },
    }
}

/// The word of a component's kind, empty where there is none of this number.
pub fn kind_of(net: &Core, comp: u32) -> &'static [u8]
    ensures { result.now ≡ kind_of net.now.wiring.sites comp }
{
    match net.comp(comp) {
        Some(site) => kind_word(&site.kind),
        None => b"",
    }
}

/// The name of an external port, empty where there is none of this number.
pub fn port_name(net: &Core, port: u32) -> &[u8]
    ensures { result.now ≡ unwrap_or (port_name net.now.wiring.ports port) [] }
{
    match net.names().name(port) {
        Some(name) => name,
        None => b"",
    }
}

/// The channel at a component's port, 0 where there is none.
pub fn chan_at(comp: &FlatComp, port: u32) -> u32 {
    numbered(comp.chans.as_slice(), port).copied().unwrap_or(0)
}

/// How many ports a component has.
pub fn port_count(comp: &FlatComp) -> u32 {
    u32::try_from(comp.chans.len()).unwrap_or(u32::MAX)
}

/// A component's port, as it is called.
pub fn port_of(comp: &FlatComp, port: u32) -> Piece<'static> {
    match port_at(&comp.kind, comp.sizes, port) {
        Some(at) => Piece::Port(at),
        None => Piece::Text(""),
    }
}
