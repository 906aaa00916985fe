//! From a text to the net of one of its parts. The text is read once.
//!
//! The text goes once its parts are read, as its nodes do: the net is made with the records alone beside it. A command that
//! goes on reading after the netlist keeps its text.

ghost use Rattle.std.specs.Prelude.{◌≡◌, IfOk, IfErr};
ghost use Rattle.std.specs.Option.{option_copied};
ghost use Rattle.bz_elab.specs.Refusals.{Elaborated};
ghost use Rattle.bz_cli_input.specs.Choosing.{Chooses, RefusesChoice};
ghost use Rattle.bz_cli_input.specs.Opening.{Denotes, IsSound, NamesParts, RefusesNet, RefusesPart, RefusesText};

use crate::fault::Fault;
use crate::refusal::in_part;
use crate::tops::tops_of;
use bz_breeze_records::Parts;
use bz_elab::elaborate;
use bz_flat::{ElabError, Flat};
use std::alloc::Global;

/// The parts of a text. Nothing else of the text is kept.
#[derive(Drop)]
pub struct Netlist {
    pub parts: Parts,
}

impl Netlist {
    pub fn read(alloc: Global, text: &[u8]) -> Result<Netlist, Fault>
        ensures ok { IfOk result (λ netlist. NamesParts text.now netlist.parts) }
        ensures err { IfErr result (RefusesText text.now) }
    {
        let forest = bz_sexpr::read_forest(alloc, text)?;
        let parts = bz_breeze::parts_of(alloc, forest.forms())?;
        Ok(Netlist { parts })
    }

    /// The name of the part that is opened: the one that is asked for, or else the only one that no other part uses.
    pub fn name(&self, alloc: Global, asked: Option<&[u8]>) -> Result<Vec<u8>, Fault>
        ensures ok { IfOk result (λ name. Chooses self.now.parts (option_copied asked.entry) name.items) }
        ensures err { IfErr result (RefusesChoice self.now.parts (option_copied asked.entry)) }
    {
        if let Some(name) = asked {
            return Ok(Vec::from_slice(alloc, name)?);
        }
        let mut tops = tops_of(alloc, &self.parts)?;
        match tops.len() {
            1 => Ok(tops.remove(0)),
            _ => Err(Fault::Top(tops)),
        }
    }

    /// The flat net of the part of this name.
    pub fn net(&self, alloc: Global, name: &[u8]) -> Result<Flat, Fault>
        ensures ok { IfOk result (λ flat. Elaborated self.now.parts name.now flat.wiring) }
        ensures sound { IfOk result (λ flat. IsSound self.now.parts name.now) }
        ensures err { IfErr result (RefusesPart self.now.parts name.now) }
    {
        match elaborate(alloc, &self.parts, name) {
            Ok(flat) => Ok(flat),
            Err(ElabError::Memory) => Err(Fault::Memory),
            Err(error) => Err(in_part(alloc, self.parts.list(), name, error)),
        }
    }
}

/// The flat net that the text denotes: that of the part that is asked for, or else of the only one that no other part uses.
pub fn flat_of(alloc: Global, asked: Option<&[u8]>, text: &[u8]) -> Result<Flat, Fault>
    ensures ok { IfOk result (λ flat. Denotes text.now (option_copied asked.entry) flat.wiring) }
    ensures err { IfErr result (RefusesNet text.now (option_copied asked.entry)) }
{
    let netlist = Netlist::read(alloc, text)?;
    let name = netlist.name(alloc, asked)?;
    netlist.net(alloc, name.as_slice())
}

/// The same of a text that ends there: it goes before the net is made.
pub fn flat_of_input(alloc: Global, asked: Option<&[u8]>, text: Vec<u8>) -> Result<Flat, Fault>
    ensures ok { IfOk result (λ flat. Denotes text.items (option_copied asked.entry) flat.wiring) }
    ensures err { IfErr result (RefusesNet text.items (option_copied asked.entry)) }
{
    let (_, flat) = named_flat_of_input(alloc, asked, text)?;
    Ok(flat)
}

/// The same, under the name of the part that is opened.
pub(crate) fn named_flat_of_input(
    alloc: Global,
    asked: Option<&[u8]>,
    text: Vec<u8>,
) -> Result<(Vec<u8>, Flat), Fault>
    ensures ok { IfOk result (λ r. (d : Denotes text.items (option_copied asked.entry) r.1.wiring) × (d.name ≡ r.0.items)) }
    ensures err { IfErr result (RefusesNet text.items (option_copied asked.entry)) }
{
    let netlist = Netlist::read(alloc, text.as_slice())?;
    drop(text);
    let name = netlist.name(alloc, asked)?;
    let flat = netlist.net(alloc, name.as_slice())?;
    Ok((name, flat))
}
