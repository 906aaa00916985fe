//! Where a netlist and a trace stand.

/// A netlist and a trace: in one text, of which the trace begins at this byte, or in two.
#[derive(Drop)]
pub(crate) enum Held {
    Joined { text: Vec<u8>, place: usize },
    Apart { netlist: Vec<u8>, trace: Vec<u8> },
}
