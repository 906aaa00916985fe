//! Nets that are well wired: that of a netlist, and one that a trace was checked against.

ghost use Rattle.std.specs.Prelude.{ℕ, List, IfOk};
ghost use Rattle.std.specs.Option.{option_copied};
ghost use Rattle.bz_model.specs.Nets.{opening};
ghost use Rattle.bz_flat.specs.Wires.{WellWired};
ghost use Rattle.bz_net.specs.Unbroken.{UnbrokenRun};
ghost use Rattle.bz_trace.specs.Verdicts.{IsRunText};
ghost use Rattle.bz_cli_input.specs.Opening.{Denotes};

use bz_cli_input::{Fault, flat_of};
use bz_flat::Flat;
use bz_net::Play;
use std::alloc::Global;

/// The net that a text denotes: it is well wired, as the laws of this crate ask.
pub fn well_wired_net(alloc: Global, asked: Option<&[u8]>, text: &[u8]) -> Result<Flat, Fault>
    ensures denotes { IfOk result (λ flat. Denotes text.now (option_copied asked.entry) flat.wiring) }
    ensures wired { IfOk result (λ flat. WellWired flat.wiring) }
{
    match flat_of(alloc, asked, text) {
        Ok(flat) => {
            let _ports = flat.ports();
            Ok(flat)
        }
        Err(fault) => Err(fault),
    }
}

/// Of the net that a trace was checked against, wherever it is left: no channel is broken in any state of a run whose trace
/// `check` accepts.
pub fn checked_runs_break_no_channel(net: &Play)
    ensures { (text : List ℕ) (run : IsRunText net.now.wiring text)
        → UnbrokenRun net.now.wiring (opening net.now.wiring) run.entries run.last }
{
    let _names = net.names();
}
