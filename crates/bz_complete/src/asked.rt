//! What is asked for of a short trace.

/// What is asked for of a short trace.
#[derive(Clone, Copy)]
pub struct CompleteAsked {
    /// That its run ends at rest.
    pub to_rest: bool,
    /// Notes on a line that is none of a short trace.
    pub explains: bool,
}
