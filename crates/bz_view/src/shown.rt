//! A net in a state, with names of its components and channels where they are written.

use crate::piece::{Piece, put_chan_in, put_comp_in};
use crate::seen::{chan_of, kind_of, port_count, port_name};
use bz_model::{Chan, Phase, Verb};
use bz_net::Core;
use bz_source::{Records, Survey};
use bz_text::Text;

/// A net in a state, and where the names in its lines are from.
#[derive(Clone, Copy)]
pub struct Shown<'v> {
    pub net: &'v Core,
    names: Names<'v>,
}

/// Where names are from.
#[derive(Clone, Copy)]
enum Names<'v> {
    Survey(&'v Survey),
    /// Each is looked up where it is written.
    Records(&'v Records<'v>),
}

impl<'v> Shown<'v> {
    /// This net, with the records in which its names are looked up.
    pub fn by_records(net: &'v Core, records: &'v Records<'v>) -> Shown<'v> {
        Shown {
            net,
            names: Names::Records(records),
        }
    }

    pub(crate) fn by_survey(net: &'v Core, survey: &'v Survey) -> Shown<'v> {
        Shown {
            net,
            names: Names::Survey(survey),
        }
    }

    /// How many components can move.
    pub fn count_ready(self) -> usize {
        (1..=self.net.comp_count())
            .filter(|comp| self.net.is_ready(*comp))
            .count()
    }

    /// A channel, one without width where there is none of this number.
    pub fn chan(self, chan: u32) -> Chan {
        chan_of(self.net, chan)
    }

    /// The phase of a channel, idle where there is none of this number.
    pub fn phase(self, chan: u32) -> Phase {
        self.net.phase(chan)
    }

    /// The component at the passive or the active end of a channel, where a component is there and not the host.
    pub fn end(self, chan: u32, passive: bool) -> Option<u32> {
        self.net.names().chan(chan)?;
        let [active, at_passive] = self.net.ends(chan);
        if passive { at_passive } else { active }
    }

    /// The word of a component's kind, empty where there is none of this number.
    pub fn kind(self, comp: u32) -> &'static [u8] {
        kind_of(self.net, comp)
    }

    /// Adds a component, as it is called, with the copy in which it is.
    pub(crate) fn put_comp(self, number: u32, text: &mut Text) {
        let kind = self.kind(number);
        match self.names {
            Names::Survey(survey) => text.say("%", &[Piece::Comp(survey, kind, number)]),
            Names::Records(records) => put_comp_in(text, records, kind, number),
        }
    }

    /// Adds a channel, as it is called.
    pub(crate) fn put_chan(self, chan: u32, text: &mut Text) {
        match self.names {
            Names::Survey(survey) => text.say("%", &[Piece::Chan(survey, chan)]),
            Names::Records(records) => put_chan_in(text, records, chan),
        }
    }

    /// How many ports a component has, 0 where there is none of this number.
    pub fn port_count(self, comp: u32) -> u32 {
        match self.net.comp(comp) {
            Some(site) => port_count(site),
            None => 0,
        }
    }

    /// A word of the host as it is typed, `V` standing for its value.
    pub fn host_word(self, verb: Verb, port: u32) -> Piece<'v> {
        let has_value = verb.wants_value(self.chan(port).kind);
        Piece::Word(verb, port_name(self.net, port), has_value)
    }
}
