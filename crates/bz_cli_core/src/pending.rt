//! Entries of a play that have yet to be written.

ghost use Rattle.std.specs.Prelude.{◌≡◌, ◌≤◌, ◌<◌, ℕ, List, [], Option, vec_len, vec_capacity};
ghost use Rattle.std.specs.Io.KnownBytes.{Keeps};
ghost use Rattle.bz_model.specs.declared.event.Entry.{Entry};
ghost use Rattle.bz_model.specs.Names.{External};
ghost use Rattle.bz_model.specs.Traces.{trace_text};
ghost use Rattle.bz_cli_core.specs.Sending.{IsSent, SentUp, PutsOut};

use bz_model::{Entry, Names};
use bz_text::WriteFault;
use bz_trace::{put_clashes, put_entries, put_first_line};
use std::io::Write;

/// The entries of host commands whose lines have yet to go out, in a buffer that is reserved before the first of them, and
/// whether the writer has failed: then nothing more goes out.
#[derive(Drop)]
pub(crate) struct Pending {
    pub(crate) entries: Vec<Entry>,
    pub(crate) failed: bool,
}

impl Pending {
    /// Writes the first line of a trace. The entries that come after it go into this buffer.
    pub(crate) fn begin<W: Write>(buffer: Vec<Entry>, out: &mut W) -> Pending
        requires { buffer.items ≡ [] }
        ensures begun { (ports : List External) → IsSent ports (W.contents out.old) [] (W.contents out.new) result }
        ensures room { vec_capacity result.entries ≡ vec_capacity buffer }
    {
        let failed = put_first_line(out).is_err();
        Pending {
            entries: buffer,
            failed,
        }
    }

    /// Makes room for one more entry at least.
    pub(crate) fn make_room<W: Write>(&mut self, names: &Names, out: &mut W)
        requires { 0 < vec_capacity self.old.entries }
        ensures sent { (start : Option (List ℕ)) (played : List Entry) →
            IsSent names.now.ports start played (W.contents out.old) self.old →
            IsSent names.now.ports start played (W.contents out.new) self.new }
        ensures room { vec_len self.new.entries < vec_capacity self.new.entries }
        ensures grown { vec_capacity self.old.entries ≤ vec_capacity self.new.entries }
    {
        if self.entries.len() == self.entries.capacity() {
            self.put(names, out);
        }
    }

    /// Writes the lines of the entries, and has none left.
    pub(crate) fn put<W: Write>(&mut self, names: &Names, out: &mut W)
        ensures sent { (start : Option (List ℕ)) (played : List Entry) →
            IsSent names.now.ports start played (W.contents out.old) self.old →
            IsSent names.now.ports start played (W.contents out.new) self.new }
        ensures empty { vec_len self.new.entries ≡ 0 }
        ensures none { self.new.entries.items ≡ [] }
        ensures room { vec_capacity self.new.entries ≡ vec_capacity self.old.entries }
    {
        self.failed = put_piece(self.failed, names, &self.entries, out);
        self.entries.clear();
    }

    /// Writes what is left of the trace: the lines of the entries, and those of the components at which requests met. Down to
    /// the last byte, or the writer failed, now or before.
    pub(crate) fn finish<W: Write>(
        &mut self,
        names: &Names,
        clashes: &[u32],
        out: &mut W,
    ) -> Result<(), WriteFault>
        ensures { (start : Option (List ℕ)) (played : List Entry) →
            IsSent names.now.ports start played (W.contents out.old) self.old →
            PutsOut start (W.contents out.new) result (trace_text names.now.ports played clashes.now) }
    {
        self.put(names, out);
        if self.failed {
            return Err(WriteFault);
        }
        put_clashes(out, clashes)?;
        out.flush().map_err(|_| WriteFault)
    }
}

// Writes the lines of some entries, unless the writer has failed; and whether it has now.
fn put_piece<W: Write>(failed: bool, names: &Names, entries: &[Entry], out: &mut W) -> bool
    ensures { (start : Option (List ℕ)) (played : List Entry) →
        SentUp names.now.ports start played (W.contents out.old) failed entries.now →
        SentUp names.now.ports start played (W.contents out.new) result [] }
{
    if failed {
        return true;
    }
    if entries.is_empty() {
        return false;
    }
    put_entries(out, names, entries).is_err()
}
