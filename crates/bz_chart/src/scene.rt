//! What all parts of a drawing go by.

use crate::columns::Columns;
use bz_chart_layout::{Circuit, Layout, Picks, Piece};
use bz_source::Survey;
use bz_trace_text::LineNames;

/// What is drawn: a piece of the trace of a part's net.
#[derive(Clone, Copy)]
pub(crate) struct Chart<'a> {
    pub circuit: &'a Circuit,
    pub names: &'a LineNames<'a>,
    pub survey: &'a Survey,
    pub part: &'a [u8],
    pub trace: &'a [u8],
    pub piece: Piece,
    /// What is shown of it, where not all is.
    pub picks: Option<&'a Picks>,
}

/// The lifelines that are shown of it, and the places of all.
#[derive(Clone, Copy)]
pub(crate) struct Scene<'a> {
    pub chart: Chart<'a>,
    pub columns: &'a Columns,
    pub layout: Layout,
}

/// Where the lifelines begin.
pub(crate) const TOP: u64 = 112;
