//! From a netlist to the net of a part, and to where everything in it stands. The text is read once.
//!
//! `net_of` leaves the places for later (`Source::survey`): those of a tree of instances may cost several times what its net
//! does, and who checks a trace first may not want them.

ghost use Rattle.std.specs.Prelude.{IfOk, IfErr};
ghost use Rattle.std.specs.Option.{option_copied};
ghost use Rattle.bz_cli_input.specs.Opening.{Denotes, RefusesNet};
ghost use Rattle.bz_cli_source.specs.Surveys.{IsRead, IsSurvey};

use bz_cli_input::{Fault, Netlist};
use bz_flat::Flat;
use bz_source::{PlacesError, Source, Survey, lines_of};
use std::alloc::Global;

/// The net that the text denotes, the parts of that text, of which a survey can be made where one is wanted, and the name of the
/// part that is opened: the one that is asked for, or else the only one that no other part uses.
pub fn net_of(
    alloc: Global,
    asked: Option<&[u8]>,
    text: &[u8],
) -> Result<(Flat, Source, Vec<u8>), Fault>
    ensures net { IfOk result (λ r. Denotes text.now (option_copied asked.entry) r.0.wiring) }
    ensures read { IfOk result (λ r. IsRead text.now (option_copied asked.entry) r.2.items r.0.wiring r.1.parts r.1.lines.items) }
    ensures err { IfErr result (RefusesNet text.now (option_copied asked.entry)) }
{
    let forest = bz_sexpr::read_forest(alloc, text)?;
    let parts = bz_breeze::parts_of(alloc, forest.forms())?;
    let lines = lines_of(alloc, text, forest.forms())?;
    // the records and their lines are all that is wanted of the data
    drop(forest);
    let netlist = Netlist { parts };
    let name = netlist.name(alloc, asked)?;
    let flat = netlist.net(alloc, name.as_slice())?;
    let parts = netlist.parts;
    Ok((flat, Source { parts, lines }, name))
}

/// The net that the text denotes, where everything in it stands, and the name of its part.
pub fn survey_of(
    alloc: Global,
    asked: Option<&[u8]>,
    text: &[u8],
) -> Result<(Flat, Survey, Vec<u8>), Fault>
    ensures net { IfOk result (λ r. Denotes text.now (option_copied asked.entry) r.0.wiring) }
    ensures survey { IfOk result (λ r. IsSurvey text.now (option_copied asked.entry) r.2.items r.0.wiring r.1) }
    ensures err { IfErr result (RefusesNet text.now (option_copied asked.entry)) }
{
    let (flat, source, name) = net_of(alloc, asked, text)?;
    match source.survey(alloc, name.as_slice()) {
        Ok(survey) => Ok((flat, survey, name)),
        Err(PlacesError::Memory) => Err(Fault::Memory),
        // a part that has a net has places
        Err(PlacesError::NoPart) => unreachable!(),
        Err(PlacesError::TooDeep) => unreachable!(),
    }
}
