//! Notes on a fault: how they are gathered and written, places and names that they speak of, and a reader that keeps a text for
//! them.
#![tactic(auto)]

mod detail;
mod finding;
mod keeping;
mod letters;
mod nearest;
mod notes;
mod object;
mod source;
mod spot;
mod telling;

pub use detail::Detail;
pub use finding::{Finding, Findings, Severity, tell_findings};
pub use keeping::Keeping;
pub use nearest::{nearest_name, port_names};
pub use notes::{NEAREST, Notes, Place};
pub use object::{tell_json, tell_refusal};
pub use source::{put_source, put_source_from};
pub use spot::{before_in_line, spot_of};
pub use telling::{tell, tell_notes};
