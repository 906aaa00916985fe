//! What is asked of a trace that is checked.

ghost use Rattle.std.specs.Prelude.{◌≡◌, false};

/// What is asked of a trace, beside whether it is that of a run.
#[derive(Clone, Copy)]
pub struct CheckWay {
    /// Whether no more of it is read once a line is that of no run.
    pub to_first: bool,
    /// Whether a run has to end at rest.
    pub to_rest: bool,
    /// Whether the line that a verdict names is kept for notes.
    pub keeps: bool,
}

impl CheckWay {
    /// All of a trace is looked at, and it may end anywhere. The line that the verdict names is kept where that is asked for.
    pub fn whole(keeps: bool) -> CheckWay
        ensures first { result.to_first ≡ false }
        ensures rest { result.to_rest ≡ false }
    {
        CheckWay {
            to_first: false,
            to_rest: false,
            keeps,
        }
    }
}
