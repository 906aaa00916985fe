//! The command `run`: words played on a part of a netlist, and the trace of it.
//!
//! `run` keeps no journal. Its buffer is reserved before the net is opened, and from the opening on it takes no memory: so F3
//! comes with nothing written. The limit of `--journal` counts the entries that were played, whether they went out or not.
//!
//! How many entries of host commands go out at a time is a parameter of `run_in_pieces`, so that tests can have pieces of one
//! entry. A run's entries wait in no buffer: an entry of 112 bytes takes as long to keep and to read again as its line takes
//! to compose.

ghost use Rattle.std.specs.Prelude.{◌≡◌, ◌≢◌, ◌<◌, ◌≤◌, [], map, vec_capacity, IfOk, IfErr, IfSome, OnOk, OnErr};
ghost use Rattle.std.specs.Io.KnownBytes.{Appends};
ghost use Rattle.std.specs.Option.{option_copied};
ghost use Rattle.bz_model.specs.Traces.{trace_text};
ghost use Rattle.bz_net.specs.Progress.{IsToldBy};
ghost use Rattle.bz_cli_input.specs.Reading.{ReadsWithin};
ghost use Rattle.bz_words.specs.Words.{command_of, texts};
ghost use Rattle.bz_cli_core.specs.Running.{AreCommands, PlaysNet, RunsText, RefusesWords, Runs, fault_of};
ghost use Rattle.bz_cli_core.specs.Sending.{with_net};
ghost use Rattle.bz_cli_input.specs.Stopping.{AppendsSome};

use crate::pending::Pending;
use crate::playing::{End, Halt, Stop, play_out};
use bz_cli_input::{Fault, flat_of_input, read_input};
use bz_model::{Cmd, Entry, Names, NetError};
use bz_net::Play;
use bz_text::WriteFault;
use bz_trace::{Watch, write_trace};
use bz_trace_text::Outgoing;
use bz_words::command;
use std::alloc::Global;
use std::io::{Read, Write};

/// How many entries of host commands go out at a time.
const PIECE: usize = 2048;

/// A play whose trace went out: the net at its end, and where the play halted, if it is strict and did.
pub struct Played {
    pub net: Play,
    pub halt: Option<Halt>,
}

// By hand, so that who lets one go has one call to show and not all its parts.
impl Drop for Played {
    fn drop(self) {
        let Played { net: _, halt: _ } = self;
    }
}

/// Plays the words on the net of the part that is asked for, or else of the only one that no other part uses, of the netlist
/// that the reader gives, up to `journal` entries, and writes the trace as it goes. A strict play halts after the first host
/// command that is answered busy, not-yet or not-taken. Nothing is written before the net is open, and from there on no memory
/// is taken. Where the writer fails the words are played on to their end. The exit status of the program is 0 where all was
/// played, else that of the fault. Who watches sees each entry that is made, and the net behind it.
pub fn run_cmd<R: Read, W: Write, S: Watch>(
    alloc: Global,
    asked: Option<&[u8]>,
    journal: u32,
    strict: bool,
    words: &[&str],
    input: &mut R,
    output: &mut W,
    watch: &mut S,
) -> Result<Played, Fault>
    requires least { 0 < journal }
    requires most { journal ≤ 16777216 }
    ensures runs { IfSome (R.remaining input.old) (λ text. Runs text (texts words.now) (option_copied asked.entry) journal strict
        (W.contents output.old) (W.contents output.new) result) }

    // Whatever comes of it, it reads at most one byte past the limit.
    ensures bounded { ReadsWithin (R.remaining input.old) (R.remaining input.new) }
{
    run_in_pieces(
        alloc, asked, journal, strict, PIECE, words, input, output, watch,
    )
}

/// `run_cmd` with a buffer of `room` entries.
pub fn run_in_pieces<R: Read, W: Write, S: Watch>(
    alloc: Global,
    asked: Option<&[u8]>,
    journal: u32,
    strict: bool,
    room: usize,
    words: &[&str],
    input: &mut R,
    output: &mut W,
    watch: &mut S,
) -> Result<Played, Fault>
    requires least { 0 < journal }
    requires most { journal ≤ 16777216 }
    requires some { 0 < room }
    ensures runs { IfSome (R.remaining input.old) (λ text. Runs text (texts words.now) (option_copied asked.entry) journal strict
        (W.contents output.old) (W.contents output.new) result) }
    ensures bounded { ReadsWithin (R.remaining input.old) (R.remaining input.new) }
{
    let cmds = run_words(alloc, words)?;
    let text = read_input(alloc, input)?;
    run_text(
        alloc,
        asked,
        journal,
        strict,
        room,
        text,
        cmds.as_slice(),
        output,
        watch,
    )
}

// Plays the commands on the net of the text, and writes the trace through a buffer of so many entries.
fn run_text<W: Write, S: Watch>(
    alloc: Global,
    asked: Option<&[u8]>,
    journal: u32,
    strict: bool,
    room: usize,
    text: Vec<u8>,
    cmds: &[Cmd],
    output: &mut W,
    watch: &mut S,
) -> Result<Played, Fault>
    requires { 0 < room }
    ensures { RunsText text.items (option_copied asked.entry) journal strict cmds.now (W.contents output.old) (W.contents output.new) result }
{
    let buffer = Vec::with_capacity(alloc, room)?;
    let flat = flat_of_input(alloc, asked, text)?;
    // Lines tell components and channels by number.
    let numbers = flat.chan_count().max(flat.comp_count()) as usize + 1;
    let mut lines = Outgoing::new(alloc, numbers, false);
    let Ok(play) = Play::open(alloc, flat, journal) else {
        return Err(Fault::Memory);
    };
    watch.begin(alloc, &play);
    play_net(play, strict, buffer, &mut lines, cmds, output, watch)
}

// Plays the commands on a net that was just opened, and writes the trace through a buffer.
fn play_net<W: Write, S: Watch>(
    mut play: Play,
    strict: bool,
    buffer: Vec<Entry>,
    lines: &mut Outgoing,
    cmds: &[Cmd],
    output: &mut W,
    watch: &mut S,
) -> Result<Played, Fault>
    requires told { IsToldBy play [] }
    requires empty { buffer.items ≡ [] }
    requires room { 0 < vec_capacity buffer }
    ensures plays { PlaysNet play.wiring play.left strict cmds.now (W.contents output.old) (W.contents output.new) result }
    ensures memory { IfErr result (λ fault. fault ≢ Fault.Memory) }
{
    match play_lent(&mut play, strict, buffer, lines, cmds, output, watch) {
        Ok(halt) => Ok(Played { net: play, halt }),
        Err(fault) => Err(fault),
    }
}

// The same on a net that is lent: where the play halted.
fn play_lent<W: Write, S: Watch>(
    play: &mut Play,
    strict: bool,
    buffer: Vec<Entry>,
    lines: &mut Outgoing,
    cmds: &[Cmd],
    output: &mut W,
    watch: &mut S,
) -> Result<Option<Halt>, Fault>
    requires told { IsToldBy play.old [] }
    requires empty { buffer.items ≡ [] }
    requires room { 0 < vec_capacity buffer }
    ensures plays { PlaysNet play.old.wiring play.old.left strict cmds.now (W.contents output.old) (W.contents output.new) (with_net play.new result) }
    ensures memory { IfErr result (λ fault. fault ≢ Fault.Memory) }
{
    let mut pending = Pending::begin(buffer, output);
    let end = play_out(play, strict, cmds, &mut pending, lines, output, watch);
    play.list_clashes();
    pending.finish(play.names(), play.clashes(), output)?;
    match end {
        End::All => Ok(None),
        End::Halt(halt) => Ok(Some(halt)),
        End::Stop(stop) => Err(fault_of(stop)),
    }
}

// The commands that the words spell, each word one.
fn run_words(alloc: Global, words: &[&str]) -> Result<Vec<Cmd>, Fault>
    ensures ok { IfOk result (λ cmds. AreCommands (texts words.now) (map command_of cmds.items)) }
    ensures err { IfErr result (RefusesWords (texts words.now)) }
{
    let mut cmds = Vec::new(alloc);
    for (place, word) in words.iter().enumerate() {
        let Some(cmd) = command(alloc, word)? else {
            return Err(Fault::Word(place + 1));
        };
        cmds.push(cmd)?;
    }
    Ok(cmds)
}

/// Writes the trace of the entries, down to the last byte.
pub fn write_out<W: Write>(
    names: &Names,
    entries: &[Entry],
    clashes: &[u32],
    output: &mut W,
) -> Result<(), WriteFault>
    ensures ok { OnOk result (Appends (W.contents output.old) (W.contents output.new) (trace_text names.now.ports entries.now clashes.now)) }
    ensures err { OnErr result (AppendsSome (W.contents output.old) (W.contents output.new) (trace_text names.now.ports entries.now clashes.now)) }
{
    write_trace(names, entries, clashes, output)?;
    output.flush().map_err(|_| WriteFault)
}

// Why a play stopped, as the command's fault.
fn fault_of(stop: Stop) -> Fault
    ensures { result ≡ fault_of stop }
{
    match stop.error {
        NetError::Memory => Fault::Memory,
        error => Fault::Event {
            error,
            word: stop.word,
        },
    }
}
