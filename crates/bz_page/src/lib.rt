//! The command `page`: a page of its own, on which a trace plays on the drawing of its net.
#![tactic(auto)]

mod around;
mod command;
mod ends;
mod escaping;
mod fault;
mod net_page;
mod rows;
mod sources;
mod template;

pub use around::Template;
pub use command::page;
pub use ends::put_stuck_row;
pub use escaping::put_escaped;
pub use fault::TooLarge;
pub use net_page::put_page;
