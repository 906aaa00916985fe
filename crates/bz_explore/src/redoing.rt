//! What was undone, kept until something else moves.
//!
//! Commands are undone in the net only where it is looked at again, and are kept from then on. So several `undo` in a row and
//! their `redo` play nothing.

use crate::answer::{Answer, add};
use crate::saving::put_command_lines;
use bz_explore_net::{Picker, Stepping};
use bz_model::{Entry, NetError};
use bz_text::Text;
use std::alloc::{AllocError, Global};

/// A command that was undone: what it had added, and from where runs and the picking went on after it.
#[derive(Drop)]
struct Undone {
    command: Vec<u8>,
    entries: Vec<Entry>,
    next: u32,
    picker: Picker,
}

/// What was undone since something moved.
#[derive(Drop)]
pub(crate) struct Redo {
    /// The commands that are no more in the net, the last one first.
    undone: Vec<Undone>,
    /// How many commands each `undo` took back.
    counts: Vec<usize>,
}

impl Redo {
    pub fn new(alloc: Global) -> Redo {
        Redo {
            undone: Vec::new(alloc),
            counts: Vec::new(alloc),
        }
    }

    /// Forgets all that was undone.
    pub fn forget(&mut self) {
        self.undone.clear();
        self.counts.clear();
    }

    /// Notes that so many commands are taken back.
    pub fn note(&mut self, count: usize, text: &mut Text) {
        if count > 0 {
            add(&mut self.counts, count, text);
        }
    }

    /// How many commands the last `undo` took back, which is then forgotten.
    pub fn take_count(&mut self) -> Option<usize> {
        self.counts.pop()
    }

    /// Keeps the last `count` commands of a net, which are about to be undone there.
    pub fn keep(&mut self, stepping: &Stepping, count: usize, text: &mut Text) {
        let left = stepping.marks().len().saturating_sub(count);
        for behind in 1..=count {
            let place = left.saturating_add(count.saturating_sub(behind));
            match undone_at(text.alloc(), stepping, place) {
                Ok(undone) => add(&mut self.undone, undone, text),
                Err(_) => text.lose(),
            }
        }
    }

    /// Makes the first `count` of the commands that were undone again, and adds them.
    pub fn make(&mut self, stepping: &mut Stepping, count: usize, answer: &mut Answer) {
        for _ in 0..count {
            if let Some(undone) = self.undone.pop() {
                let entries = undone.entries.len();
                put_command_lines(
                    "redone",
                    undone.command.as_slice(),
                    entries,
                    &mut answer.text,
                );
                if make_again(answer.text.alloc(), stepping, &undone).is_err() {
                    answer.text.lose();
                }
            }
        }
    }
}

// The command whose mark is at a place.
fn undone_at(alloc: Global, stepping: &Stepping, place: usize) -> Result<Undone, AllocError> {
    let journal = stepping.net().journal();
    let (upto, next, picker) = match stepping.marks().get(place.saturating_add(1)) {
        Some(after) => (after.entries, after.next, after.picker),
        None => (journal.len(), stepping.next(), stepping.picker()),
    };
    let Some(mark) = stepping.marks().get(place) else {
        return Err(AllocError);
    };
    let added = journal.get(mark.entries..upto).unwrap_or(&[]);
    Ok(Undone {
        command: Vec::from_slice(alloc, mark.command.as_slice())?,
        entries: Vec::from_slice(alloc, added)?,
        next,
        picker,
    })
}

// Makes a command again, event by event. It was made in the same state, so nothing but memory can be wanting.
fn make_again(alloc: Global, stepping: &mut Stepping, undone: &Undone) -> Result<(), NetError> {
    if stepping.begin(alloc, undone.command.as_slice()).is_err() {
        return Err(NetError::Memory);
    }
    for entry in &undone.entries {
        stepping.repeat_on(*entry)?;
    }
    stepping.go_on_from(undone.next, undone.picker);
    Ok(())
}
