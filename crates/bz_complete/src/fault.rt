//! Why no trace is made of a short one.

ghost use Rattle.std.specs.Prelude.{◌≡◌};
ghost use Rattle.bz_complete.specs.Completions.{status_of};

use bz_cli_input::Fault;
use std::fmt;

/// Why no trace is made of a short one.
#[derive(Drop)]
pub enum CompleteFault {
    /// The netlist is refused, a reader or the writer failed, or memory was refused.
    Command(Fault),
    /// This line, counted from 1, is none of a short trace. Notes say why, where they are asked for.
    NotShort { line: usize, why: String },
    /// The move of this line can't be made behind those before it.
    Stopped { line: usize, why: String },
    /// Behind all moves, the last of which is that of the line before this one, something can move, and rest is asked for.
    Unrested { line: usize, why: String },
    /// There would be more entries than a trace may have.
    TooLong,
}

impl CompleteFault {
    /// The exit status of a program that ends with this fault: that of the command's fault, 1 where the text is no short trace or
    /// can't be made whole, 3 where it is too long.
    pub fn status(&self) -> u8
        ensures { result ≡ status_of self.now }
    {
        match self {
            CompleteFault::Command(fault) => fault.status(),
            CompleteFault::NotShort { .. }
            | CompleteFault::Stopped { .. }
            | CompleteFault::Unrested { .. } => 1,
            CompleteFault::TooLong => 3,
        }
    }
}

impl fmt::Display for CompleteFault {
    fn fmt<W: fmt::Write>(&self, f: &mut fmt::Formatter<W>) -> fmt::Result {
        match self {
            CompleteFault::Command(fault) => write!(f, "{fault}"),
            CompleteFault::NotShort { line, why } => write!(
                f,
                "not a short trace: line {line}{why}"
            ),
            CompleteFault::Stopped { line, why } | CompleteFault::Unrested { line, why } => {
                write!(f, "not completed: line {line}{why}")
            }
            CompleteFault::TooLong => f.write_str(
                "the trace would have more than 16777216 entries",
            ),
        }
    }
}
