//! The command `explore`, over any readers and writers.
//!
//! Prompts are written only where standard input and output are both a terminal: else a log would have them, or a pipe.
//! A trace behind which a session begins was judged to be that of a run. It stands as one command, so that one `undo` takes it
//! back.
//!
//! Ctrl-C ends it there and can't take the line back, since the toolchain's library has no handler of signals and no call
//! that changes how a terminal is read.

ghost use Rattle.std.specs.Prelude.{◌≡◌};
ghost use Rattle.bz_cli_input.specs.Reading.{ReadsWithin};
ghost use Rattle.bz_explore.specs.Beginning.{IsPlayed};
ghost use Rattle.bz_explore.specs.Statuses.{status_of};

use crate::answer::Answer;
use crate::object::put_object;
use crate::redoing::Redo;
use crate::session::{Hand, Session};
use bz_cli_input::{Fault, read_input};
use bz_cli_source::survey_of;
use bz_cli_trace::Case;
use bz_explore_net::Stepping;
use bz_flat::Flat;
use bz_model::Entry;
use bz_net::{Net, Play};
use bz_source::Survey;
use bz_text::{Piece as Part, Text, put};
use bz_trace_text::MAX_ENTRIES;
use bz_view::Piece;
use std::alloc::{AllocError, Global};
use std::io::{BufRead, Read, Write};

/// The most entries of the journal.
const JOURNAL: u32 = 1_000_000;

/// The files that lines may name.
pub trait Files {
    /// Gives the file of this name these bytes: all of them, or none. One that is there is replaced where a beginning is handed
    /// in and it begins so, or has nothing; but never the netlist.
    fn put(&mut self, path: &str, bytes: &[u8], over: Option<&[u8]>) -> Result<(), NoFile>;
}

/// Why a file is not written.
#[derive(Clone, Copy)]
pub enum NoFile {
    /// There is one already.
    Exists,
    /// It is the netlist.
    Netlist,
    /// It begins otherwise than what would be written.
    Other,
    /// No line may name it.
    Barred,
    Unwritable,
    Memory,
}

/// How a session ended.
#[derive(Clone, Copy, PartialEq, Eq)]
pub enum Ending {
    /// Each line was followed, and each reply was as expected.
    Well,
    /// A reply was not the expected one.
    Differed,
    /// A line could not be followed.
    Bad,
}

impl Ending {
    /// The exit status of a program that ends so.
    pub fn status(self) -> u8
        ensures { result ≡ status_of self }
    {
        match self {
            Ending::Well => 0,
            Ending::Differed => 1,
            Ending::Bad => 2,
        }
    }

    /// This end, where something went wrong already, else the other.
    pub(crate) fn or(self, other: Ending) -> Ending {
        match self {
            Ending::Well => other,
            worse => worse,
        }
    }
}

/// How answers are written.
#[derive(Clone, Copy, PartialEq, Eq)]
pub enum Manner {
    /// Behind prompts, at a terminal.
    Prompted,
    Plain,
    /// As an object of JSON for each line that is read.
    Objects,
}

/// Opens the net of the part that is asked for by name, or else of the only one that no other part uses, in the netlist that a
/// reader gives, and follows the lines of another, each with its answer. At a prompt a greeting and prompts are written too, else
/// a line that can't be followed is told by its number. Answers are written at once.
pub fn explore_cmd<R: Read, L: BufRead, W: Write, F: Files>(
    alloc: Global,
    asked: Option<&[u8]>,
    manner: Manner,
    netlist: &mut R,
    lines: &mut L,
    files: &mut F,
    output: &mut W,
) -> Result<Ending, Fault>
    // Whatever comes of it, it reads at most one byte past the limit of a netlist.
    ensures { ReadsWithin (R.remaining netlist.old) (R.remaining netlist.new) }
{
    let text = match read_input(alloc, netlist) {
        Ok(text) => text,
        Err(fault) => return Err(Fault::from(fault)),
    };
    explore_text(alloc, asked, text.as_slice(), manner, lines, files, output)
}

// Opens the net of a part of the text.
fn explore_text<L: BufRead, W: Write, F: Files>(
    alloc: Global,
    asked: Option<&[u8]>,
    text: &[u8],
    manner: Manner,
    lines: &mut L,
    files: &mut F,
    output: &mut W,
) -> Result<Ending, Fault> {
    let (flat, survey, part) = survey_of(alloc, asked, text)?;
    let Ok(stepping) = opened(alloc, flat) else {
        return Err(Fault::Memory);
    };
    explore_net(
        alloc,
        stepping,
        &survey,
        part.as_slice(),
        manner,
        lines,
        files,
        output,
    )
}

/// The same behind the trace of a run, which was judged on the net; these are its entries.
pub fn explore_behind<L: BufRead, W: Write, F: Files>(
    alloc: Global,
    case: Case,
    journal: Vec<Entry>,
    manner: Manner,
    lines: &mut L,
    files: &mut F,
    output: &mut W,
) -> Result<Ending, Fault>
    requires { IsPlayed case.judged.net journal.items }
{
    let flat = case.judged.net.core().flat(alloc)?;
    let (net, source, part) = case.into_parts();
    // a part that has a net has places, so nothing but memory can be wanting
    let Ok(survey) = source.survey(alloc, part.as_slice()) else {
        return Err(Fault::Memory);
    };
    match behind(alloc, flat, net, journal) {
        Ok(stepping) => {
            explore_net(
                alloc,
                stepping,
                &survey,
                part.as_slice(),
                manner,
                lines,
                files,
                output,
            )
        }
        Err(_) => Err(Fault::Memory),
    }
}

// Follows the lines on a net.
fn explore_net<L: BufRead, W: Write, F: Files>(
    alloc: Global,
    stepping: Stepping,
    survey: &Survey,
    part: &[u8],
    manner: Manner,
    lines: &mut L,
    files: &mut F,
    output: &mut W,
) -> Result<Ending, Fault> {
    let mut stepping = stepping;
    let mut session = Session {
        stepping: &mut stepping,
        survey,
        part,
        typed: Vec::new(alloc),
        answer: Answer::new(alloc, manner == Manner::Objects),
        hosts: Vec::new(alloc),
        reply: None,
        undone: 0,
        redo: Redo::new(alloc),
        hand: Hand {
            is_numbered: manner == Manner::Prompted,
            is_worded: manner == Manner::Prompted,
            is_listed: false,
        },
    };
    play(manner, &mut session, lines, files, output)
}

// The net at its opening.
fn opened(alloc: Global, flat: Flat) -> Result<Stepping, AllocError> {
    match Stepping::open(alloc, flat, JOURNAL) {
        Ok(stepping) => Ok(stepping),
        // a net is refused for memory alone
        Err(_) => Err(AllocError),
    }
}

// A net that was played, with the entries of its run. Where there are none it has no command to take back.
fn behind(alloc: Global, flat: Flat, net: Play, journal: Vec<Entry>) -> Result<Stepping, AllocError>
    requires played { IsPlayed net journal.items }
    requires same { net.wiring ≡ flat.wiring }
{
    if journal.is_empty() {
        return opened(alloc, flat);
    }
    let most = MAX_ENTRIES as u32;
    Stepping::behind(alloc, flat, Net::of(net, journal, most), most, b"")
}

// Follows the lines, behind a greeting at a prompt.
fn play<L: BufRead, W: Write, F: Files>(
    manner: Manner,
    session: &mut Session<'_>,
    lines: &mut L,
    files: &mut F,
    output: &mut W,
) -> Result<Ending, Fault> {
    let prompts = manner == Manner::Prompted;
    if prompts {
        greet(
            session.part,
            session.stepping.flat(),
            &mut session.answer.text,
        );
        tell(output, session.answer.text.whole()?)?;
    }
    for number in 1..u64::MAX {
        session.answer.line = if prompts { None } else { Some(number) };
        let line = read_line(session.answer.text.alloc(), prompts, lines, output)?;
        if line.is_empty() {
            break;
        }
        let goes_on = session.follows(files, line.as_slice());
        tell_answer(output, &session.answer, number)?;
        if !goes_on {
            break;
        }
    }
    Ok(session.answer.ending)
}

// Writes the answer of the line of this number.
fn tell_answer<W: Write>(output: &mut W, answer: &Answer, number: u64) -> Result<(), Fault> {
    if !answer.is_object {
        return tell(output, answer.text.whole()?);
    }
    let mut object = Text::new(answer.text.alloc());
    put_object(answer, number, &mut object);
    tell(output, object.whole()?)
}

fn greet(part: &[u8], flat: &Flat, text: &mut Text) {
    let comps = Piece::Count(flat.comp_count() as usize, "component");
    let chans = Piece::Count(flat.chan_count() as usize, "channel");
    let ports = Piece::Count(flat.ports().len(), "port");
    text.put_pieces(&[Part::Bytes(b"breezesim: "), Part::Name(part)]);
    text.say(": %, %, %", &[comps, chans, ports]);
    text.put("; `help` tells the commands\n");
}

// Reads a line, behind a prompt; the empty one is the end of all lines.
fn read_line<L: BufRead, W: Write>(
    alloc: Global,
    prompts: bool,
    lines: &mut L,
    output: &mut W,
) -> Result<Vec<u8>, Fault> {
    if prompts {
        tell(output, b"> ")?;
    }
    let mut line = Vec::new(alloc);
    if lines.read_until(b'\n', &mut line).is_err() {
        return Err(Fault::Read);
    }
    if prompts && line.last() != Some(&b'\n') {
        // (the end of the input was typed)
        tell(output, b"\n")?;
    }
    Ok(line)
}

// Writes bytes, so that they are read at once.
fn tell<W: Write>(output: &mut W, bytes: &[u8]) -> Result<(), Fault> {
    put(output, bytes)?;
    output.flush().map_err(|_| Fault::Write)
}
