//! What is asked for of a run.

ghost use Rattle.std.specs.Prelude.{IfErr, IfOk};
ghost use Rattle.bz_cli_waits.specs.Asking.{IsLine, IsNone};

use std::fmt;

/// What is asked for of a run.
#[derive(Clone, Copy, PartialEq, Eq)]
pub struct WaitsAsked {
    /// The line behind which it is asked for, counted from 1: the last of the trace where none is named.
    pub line: Option<usize>,
    /// The component on which it is asked what it hangs: all are told where none is named.
    pub comp: Option<u32>,
}

/// Why nothing is told of a run.
#[derive(Clone, Copy, PartialEq, Eq)]
pub enum WaitsFault {
    /// The line isn't there.
    NoLine { line: usize, lines: usize },
    /// The component isn't there.
    NoComp { comp: u32, comps: u32 },
}

impl fmt::Display for WaitsFault {
    fn fmt<W: fmt::Write>(&self, f: &mut fmt::Formatter<W>) -> fmt::Result {
        match self {
            WaitsFault::NoLine { line, lines } => {
                write!(f, "--line {line}: the trace has {lines} lines")
            }
            WaitsFault::NoComp { comp, comps } => {
                write!(f, "there is no component {comp}: the last is {comps}")
            }
        }
    }
}

/// The line that is asked for, in a trace of so many lines and a net of so many components.
pub(crate) fn line_of(asked: WaitsAsked, lines: usize, comps: u32) -> Result<usize, WaitsFault>
    ensures ok { IfOk result (IsLine asked lines comps) }
    ensures err { IfErr result (IsNone asked lines comps) }
{
    let line = match asked.line {
        None => lines,
        Some(line) => line,
    };
    if line == 0 || line > lines {
        return Err(WaitsFault::NoLine { line, lines });
    }
    match asked.comp {
        Some(comp) if comp == 0 || comp > comps => Err(WaitsFault::NoComp { comp, comps }),
        _ => Ok(line),
    }
}
