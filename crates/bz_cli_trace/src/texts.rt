//! A netlist and a trace.

ghost use Rattle.std.specs.Prelude.{◌≡◌, ◌≤◌, length, IfOk, IfSome};
ghost use Rattle.bz_cli_input.specs.Limits.{input_limit};
ghost use Rattle.bz_cli_input.specs.Reading.{ReadsWithin};
ghost use Rattle.bz_cli_trace.specs.Splitting.{Splits};
ghost use Rattle.std.specs.Option.{option_map};
ghost use Rattle.bz_cli_trace.specs.Taking.{AreOfText, AreOfTwo, AreTaken};

use crate::held::Held;
use crate::splitting::split_trace;
use bz_cli_input::{InputFault, read_input};
use std::alloc::Global;
use std::io::Read;
use std::marker::Model;

/// A netlist and a trace, each within the limit.
#[derive(Drop)]
pub struct Texts {
    held: Held,
}

impl Model for Texts {
    ghost use Rattle.bz_cli_trace.specs.Texts.{IsTaken, TextPair, netlist_held, trace_held};

    ghost Value = { TextPair };

    ghost view = { λ texts. record { netlist = netlist_held texts.held; trace = trace_held texts.held } };

    ghost invariant = { λ texts. IsTaken texts.held };
}

impl Texts {
    /// Those of a command: the trace is that of a reader of its own, or stands after the netlist.
    pub fn of<R: Read, T: Read>(
        alloc: Global,
        input: &mut R,
        trace: Option<&mut T>,
    ) -> Result<Texts, InputFault>
        ensures taken { IfOk result (λ texts. AreTaken (R.remaining input.old) (option_map (λ apart. T.remaining apart.now) trace.entry) texts) }

        // Whatever comes of it, it reads at most one byte past the limit.
        ensures bounded { ReadsWithin (R.remaining input.old) (R.remaining input.new) }
    {
        match trace {
            Some(trace) => Texts::read_apart(alloc, input, trace),
            None => Texts::read(alloc, input),
        }
    }

    /// Those of one reader, the trace after the netlist.
    pub fn read<R: Read>(alloc: Global, input: &mut R) -> Result<Texts, InputFault>
        ensures taken { IfOk result (λ texts. IfSome (R.remaining input.old) (λ text. AreOfText text texts)) }

        // Whatever comes of it, it reads at most one byte past the limit.
        ensures bounded { ReadsWithin (R.remaining input.old) (R.remaining input.new) }
    {
        match read_input(alloc, input) {
            Ok(text) => Ok(Texts::joined(text)),
            Err(fault) => Err(fault),
        }
    }

    /// Those of two readers, with the limit for each.
    pub fn read_apart<R: Read, T: Read>(
        alloc: Global,
        input: &mut R,
        trace: &mut T,
    ) -> Result<Texts, InputFault>
        ensures taken { IfOk result (λ texts. IfSome (R.remaining input.old) (λ netlist. IfSome (T.remaining trace.old)
            (λ text. AreOfTwo netlist text texts))) }
        ensures bounded { ReadsWithin (R.remaining input.old) (R.remaining input.new) }
        ensures bounded_trace { ReadsWithin (T.remaining trace.old) (T.remaining trace.new) }
    {
        let netlist = match read_input(alloc, input) {
            Ok(netlist) => netlist,
            Err(fault) => return Err(fault),
        };
        match read_input(alloc, trace) {
            Ok(trace) => Ok(Texts {
                held: Held::Apart { netlist, trace },
            }),
            Err(fault) => Err(fault),
        }
    }

    // Those of a text.
    fn joined(text: Vec<u8>) -> Texts
        requires { length text.items ≤ input_limit }
        ensures { Splits text.items result.netlist result.trace }
    {
        let (netlist, _) = split_trace(text.as_slice());
        let place = netlist.len();
        Texts {
            held: Held::Joined { text, place },
        }
    }

    /// The netlist, and the trace.
    pub fn both(&self) -> (&[u8], &[u8])
        ensures netlist { result.0.now ≡ self.now.netlist }
        ensures trace { result.1.now ≡ self.now.trace }
        ensures few { length self.now.trace ≤ input_limit }
    {
        match &self.held {
            Held::Joined { text, place } => text.as_slice().split_at(*place),
            Held::Apart { netlist, trace } => (netlist.as_slice(), trace.as_slice()),
        }
    }
}
