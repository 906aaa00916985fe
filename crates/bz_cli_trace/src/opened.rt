//! The net of a part of a netlist, at its opening.

ghost use Rattle.std.specs.Prelude.{◌≡◌, [], IfErr, IfOk};
ghost use Rattle.std.specs.Option.{option_copied};
ghost use Rattle.bz_model.specs.Limits.{max_entries};
ghost use Rattle.bz_net.specs.Progress.{IsToldBy};
ghost use Rattle.bz_cli_input.specs.Opening.{RefusesNet};
ghost use Rattle.bz_cli_trace.specs.Judging.{IsOpened};

use bz_cli_input::Fault;
use bz_cli_source::net_of;
use bz_net::Play;
use bz_source::Source;
use bz_trace::MAX_ENTRIES;
use std::alloc::Global;

/// The net of a part of a netlist, which lets in as many entries as a trace may have; the text that it comes of; and the name of the
/// part.
pub struct Opened {
    pub net: Play,
    pub source: Source,
    pub part: Vec<u8>,
}

// By hand, so that who lets one go has one call to show and not all its parts.
impl Drop for Opened {
    fn drop(self) {
        let Opened {
            net: _,
            source: _,
            part: _,
        } = self;
    }
}

impl Opened {
    /// The net of a part of the netlist, at its opening.
    pub fn of(alloc: Global, asked: Option<&[u8]>, netlist: &[u8]) -> Result<Opened, Fault>
        ensures opened { IfOk result (IsOpened netlist.now (option_copied asked.entry)) }
        ensures told { IfOk result (λ opened. IsToldBy opened.net []) }
        ensures left { IfOk result (λ opened. opened.net.left ≡ max_entries) }
        ensures err { IfErr result (RefusesNet netlist.now (option_copied asked.entry)) }
    {
        let (flat, source, part) = match net_of(alloc, asked, netlist) {
            Ok(read) => read,
            Err(fault) => return Err(fault),
        };
        match Play::open(alloc, flat, MAX_ENTRIES as u32) {
            Ok(net) => Ok(Opened { net, source, part }),
            Err(_) => Err(Fault::Memory),
        }
    }

    /// The net, the text that it comes of, and the name of the part.
    pub fn into_parts(self) -> (Play, Source, Vec<u8>)
        ensures net { result.0 ≡ self.net }
        ensures source { result.1 ≡ self.source }
        ensures part { result.2 ≡ self.part }
    {
        let Opened { net, source, part } = self;
        (net, source, part)
    }
}
