//! What a trace is looked at for.

/// A text that should be the trace of a run of a net.
#[derive(Clone, Copy)]
pub struct Suspect<'t> {
    pub netlist: &'t [u8],
    /// The trace: what its file has, or lines of it, among them the one that the verdict names; or else what stands after the
    /// netlist from the line that begins a trace on, which is nothing where no line does.
    pub trace: &'t [u8],
    /// The number of the first of these lines: 1, where the trace is whole.
    pub first: usize,
    /// The name of its file, where it has one of its own.
    pub file: Option<&'t str>,
}
