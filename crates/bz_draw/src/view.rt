//! Which part of a net is drawn.
//!
//! No more than 5,000 components and boxes are drawn, also at a depth that was asked for: of more Graphviz makes nothing that
//! one can look at, and what is near a component can be drawn of any net.

use crate::drawing::Drawing;
use bz_flat::Pieces;
use bz_model::Phase;
use bz_net::Core;
use bz_source::Survey;

/// Which part of a net is drawn.
#[derive(Clone, Copy, PartialEq, Eq)]
pub enum View {
    /// All of it, with instances within so many others as boxes. Where no depth is named, it is the greatest at which at most
    /// 300 components and boxes are drawn, or else 0.
    Whole { depth: Option<usize> },
    /// The components that are at most so many channels away from this one, counted from 1. None is in a box.
    Around { comp: u32, hops: u32 },
}

impl View {
    /// The depth at which instances are boxes, where one is named.
    pub(crate) fn depth(self) -> Option<usize> {
        match self {
            View::Whole { depth } => depth,
            View::Around { .. } => Some(usize::MAX),
        }
    }
}

/// A net behind a line of a trace, which has so many.
#[derive(Clone, Copy)]
pub(crate) struct Moment<'a> {
    pub net: &'a Core,
    pub line: usize,
    pub lines: usize,
}

/// The net that is drawn, where everything in it stands, what is drawn of it, and the moment that is shown, if one is.
#[derive(Clone, Copy)]
pub(crate) struct Scene<'a> {
    pub net: &'a Pieces,
    pub survey: &'a Survey,
    pub view: View,
    pub drawing: &'a Drawing,
    pub moment: Option<Moment<'a>>,
}

impl Scene<'_> {
    /// What is on a channel, where a moment is shown.
    pub fn phase(self, chan: u32) -> Option<Phase> {
        match self.moment {
            Some(moment) => Some(moment.net.phase(chan)),
            None => None,
        }
    }
}
