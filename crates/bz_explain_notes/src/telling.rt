//! A fault and its notes on their way to the writer.

ghost use Rattle.std.specs.Prelude.{◌≡◌};
ghost use Rattle.bz_cli_input.specs.Statuses.{status_of};
ghost use Rattle.bz_explain_notes.specs.Notes.{HasNotes};

use crate::letters::put_notes;
use crate::notes::Notes;
use bz_cli_input::Fault;
use bz_text::WriteFault;
use std::alloc::Global;
use std::io::Write;

/// Tells a fault by its line, and after that by the notes that were gathered, if any were asked for. Answers the exit status of
/// the fault.
pub fn tell<W: Write>(alloc: Global, fault: &Fault, notes: Option<&Notes>, out: &mut W) -> u8
    ensures { result ≡ status_of fault.now }
{
    // (a part that would have to be named is an error of the command line)
    let front = match fault {
        Fault::Top(_) => "error",
        _ => "breezesim",
    };
    let _ = writeln!(out, "{front}: {fault}");
    if let Some(notes) = notes {
        let _ = tell_notes(alloc, notes, out);
    }
    fault.status()
}

/// Writes the notes that were ended: lines that begin with `breezesim: note: ` and have printable letters alone.
pub fn tell_notes<W: Write>(alloc: Global, notes: &Notes, out: &mut W) -> Result<(), WriteFault>
    ensures { HasNotes (W.contents out.old) (W.contents out.new) result }
{
    put_notes(alloc, out, notes.ended())
}
