//! The lines of a run, composed as they come.

ghost use Rattle.std.specs.Prelude.{◌≡◌, ◌+◌, ◌*◌, ◌<◌, ◌≤◌, ◌++◌, ℕ, List, [], Option, length};
ghost use Rattle.bz_model.specs.Traces.{fired_text, rested_text};
ghost use Rattle.bz_trace_text.specs.Writing.{GoneBut, IsGone};

use crate::kept_lines::KeptLines;
use crate::kept_values::KeptValues;
use crate::page::Page;
use crate::spelled::Spelled;
use crate::trace::{add_fired, add_rested};
use bz_model::{Move, Value, Who};
use std::alloc::Global;
use std::io::Write;

/// Where there is room for fewer lines the page goes out: down to its last byte it would be filled in ever shorter rounds.
const FEW_LINES: u64 = 8;

/// Lines of a trace on a page that goes out when it is nearly full, and whether the writer has failed: then nothing more goes out.
#[derive(Drop)]
pub struct Outgoing {
    page: Page,
    failed: bool,
    spelled: Spelled,
    kept: KeptLines,
    values: KeptValues,
}

impl Outgoing {
    /// No line yet, for a writer that has failed before or has not. The numbers below `count` are spelled once for all lines,
    /// and so are those below 1,000, unless they are many or there is no memory for them. After this no memory is taken.
    pub fn new(alloc: Global, count: usize, failed: bool) -> Outgoing
        ensures { (start now : Option (List ℕ)) (text : List ℕ) →
            GoneBut start now failed [] text → IsGone start now result text }
    {
        Outgoing {
            page: Page::new(),
            failed,
            spelled: Spelled::new(alloc, count),
            kept: KeptLines::new(alloc, count),
            values: KeptValues::new(),
        }
    }

    /// Begins again without a line, for a writer that has failed before or has not.
    pub fn begin(&mut self, failed: bool)
        ensures { (start now : Option (List ℕ)) (text : List ℕ) →
            GoneBut start now failed [] text → IsGone start now self.new text }
    {
        self.page.clear();
        self.failed = failed;
    }

    /// Makes room for lines of firings, where there is little. For how many there is room then.
    #[inline(always)]
    pub fn make_room<W: Write>(&mut self, out: &mut W) -> u64
        ensures gone { (start : Option (List ℕ)) (text : List ℕ) →
            IsGone start (W.contents out.old) self.old text → IsGone start (W.contents out.new) self.new text }
        ensures some { 0 < result }
        ensures room { length self.new.page + 96 * result ≤ 8192 }
    {
        if self.page.lines_left() < FEW_LINES {
            self.put(out);
        }
        self.page.lines_left()
    }

    /// Composes the line of a firing, where there is room for it.
    #[inline(always)]
    pub fn fired(&mut self, who: Who, comp: u32, mv: Move, chan: u32, value: Option<Value>)
        requires room { length self.old.page + 96 ≤ 8192 }
        ensures text { self.new.page ≡ self.old.page ++ fired_text who comp mv chan value }
        ensures failed { self.new.failed ≡ self.old.failed }
        ensures short { length self.new.page ≤ length self.old.page + 96 }
    {
        match self.kept.find(comp, mv, chan) {
            Some(line) => {
                let values = &mut self.values;
                self.page
                    .fired_again(&self.spelled, values, who, line, value);
            }
            None => self.fired_anew(who, comp, mv, chan, value),
        }
    }

    // The same of a line that isn't kept.
    #[inline(always)]
    fn fired_anew(&mut self, who: Who, comp: u32, mv: Move, chan: u32, value: Option<Value>)
        requires room { length self.old.page + 96 ≤ 8192 }
        ensures text { self.new.page ≡ self.old.page ++ fired_text who comp mv chan value }
        ensures failed { self.new.failed ≡ self.old.failed }
        ensures short { length self.new.page ≤ length self.old.page + 96 }
    {
        self.kept.keep(comp, mv, chan);
        let spelled = self.spelled.as_slice();
        add_fired(&mut self.page, spelled, who, comp, mv, chan, value);
    }

    /// Composes the line that tells of rest.
    pub fn rested<W: Write>(&mut self, out: &mut W, who: Who)
        ensures { (start : Option (List ℕ)) (text : List ℕ) → IsGone start (W.contents out.old) self.old text →
            IsGone start (W.contents out.new) self.new (text ++ rested_text who) }
    {
        self.make_room(out);
        add_rested(&mut self.page, who);
    }

    /// Lets what waits go out. Whether the writer has failed, now or before.
    pub fn finish<W: Write>(&mut self, out: &mut W) -> bool
        ensures { (start : Option (List ℕ)) (text : List ℕ) → IsGone start (W.contents out.old) self.old text →
            GoneBut start (W.contents out.new) result [] text }
    {
        self.put(out);
        // (where it failed, nothing waits)
        self.failed
    }

    // Lets the page go out.
    #[inline(never)]
    fn put<W: Write>(&mut self, out: &mut W)
        ensures gone { (start : Option (List ℕ)) (text : List ℕ) →
            IsGone start (W.contents out.old) self.old text → IsGone start (W.contents out.new) self.new text }
        ensures empty { self.new.page ≡ [] }
    {
        if self.failed {
            self.page.clear();
        } else {
            self.failed = self.page.put(out).is_err();
        }
    }
}
