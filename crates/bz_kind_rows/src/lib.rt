//! The kinds of component: a row for each, the kind that a netlist names, and what meets a row.
#![tactic(auto)]

mod likely;
mod naming;
mod operations;
mod ports;
mod rows;
mod specification;
mod table;
mod word;

pub use naming::{kind_named, kind_of};
pub use operations::operation_names;
pub use ports::PortRow;
pub use rows::{KindRow, WidthRule, kind_rows, row_named, row_of};
pub use table::{PortAt, is_passive, kinds_are, port_at, port_table, sizes_fit, widths_fit};
pub use word::kind_word;
