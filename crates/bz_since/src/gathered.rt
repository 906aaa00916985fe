//! The entries of a trace, gathered while the trace is checked.

ghost use Rattle.std.specs.Prelude.{◌≡◌, IfOk, Some};
ghost use Rattle.bz_model.specs.Entries.{told};
ghost use Rattle.bz_since.specs.Keeping.{AreGathered, IsAtPort};

use bz_model::Entry;
use bz_net::Play;
use bz_trace::Watch;
use std::alloc::{AllocError, Global};

/// Gathers the entries of a run, each with the port that the line of a firing doesn't tell.
pub struct Gathered {
    journal: Option<Vec<Entry>>,
}

// By hand, so that who lets one go has one call to show and not all its parts.
impl Drop for Gathered {
    fn drop(self) {
        let Gathered { journal: _ } = self;
    }
}

impl Gathered {
    /// No trace yet.
    pub fn new() -> Gathered {
        Gathered { journal: None }
    }

    /// The entries, unless memory was refused for them.
    pub fn into_journal(self) -> Result<Vec<Entry>, AllocError>
        ensures { IfOk result (λ journal. self.journal ≡ Some journal) }
    {
        let Gathered { journal } = self;
        match journal {
            Some(journal) => Ok(journal),
            None => Err(AllocError),
        }
    }
}

impl Watch for Gathered {
    ghost behind = { λ w entries now. AreGathered w entries now.journal };

    fn begin(&mut self, alloc: Global, _net: &Play) {
        self.journal = Some(Vec::new(alloc));
    }

    #[inline(always)]
    fn see(&mut self, net: &Play, entry: &Entry) {
        let entry = with_port(net, *entry);
        let is_lost = match &mut self.journal {
            Some(journal) => journal.push(entry).is_err(),
            None => false,
        };
        if is_lost {
            self.journal = None;
        }
    }
}

// The same entry with the port of its firing.
#[inline(always)]
fn with_port(net: &Play, entry: Entry) -> Entry
    ensures same { told result ≡ told entry }
    ensures port { IsAtPort net.now.wiring.sites result }
{
    match entry {
        Entry::Fired {
            who,
            comp,
            port,
            chan,
            mv,
            value,
        } => Entry::Fired {
            who,
            comp,
            port: net.core().port_at(comp, chan, mv).unwrap_or(port),
            chan,
            mv,
            value,
        },
        entry => entry,
    }
}
