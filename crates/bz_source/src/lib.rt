//! Where everything in a net stands in the text: the part, the position and the path of each component, channel and instance; and
//! files of the compiler's source, which the net's places name.
#![tactic(auto)]

mod bare;
mod brought;
mod cutting;
mod detail;
mod error;
mod file;
mod inner;
mod labels;
mod lines;
mod naming;
mod path_at;
mod places;
mod record_pieces;
mod records;
mod source;
mod survey;
mod text;
mod walk;

pub use cutting::cut_line;
pub use detail::{Detail, put_detail};
pub use error::PlacesError;
pub use file::SourceFile;
pub use labels::{Label, Labels, SourceAt, SourceMark, name_piece, put_label, source_piece};
pub use lines::{LineCounter, PartLines, lines_of};
pub use naming::{Named, tell_unnamed};
pub use path_at::PathAt;
pub use places::Places;
pub use record_pieces::{PartPieces, pieces_of};
pub use records::{FoundComp, Records};
pub use source::Source;
pub use survey::Survey;
pub use text::{LineAt, at_piece, chan_line_at, comp_line_at, put_comp, put_path};
