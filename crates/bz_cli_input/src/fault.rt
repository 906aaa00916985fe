//! Why a command failed: the fault line, and the exit status of the program.

ghost use Rattle.std.specs.Prelude.{◌≡◌};
ghost use Rattle.bz_cli_input.specs.declared.fault.Fault.TheVariants.{Memory, Write};
ghost use Rattle.bz_cli_input.specs.Statuses.{of_input, of_part, of_text, of_words, status_of};

use crate::input::InputFault;
use bz_breeze::{BreezeError, ByteAt};
use bz_flat::ElabError;
use bz_model::{NetError, Who};
use bz_sexpr::SexprError;
use bz_text::{NameForm, WriteFault};
use bz_words::SessionError;
use std::alloc::{AllocError, AllocFailed};
use std::fmt;

/// The most names of parts in a line.
const MOST_NAMES: usize = 10;

/// Why a command failed. A want of memory is `Memory`, whichever layer met it.
#[derive(Drop)]
pub enum Fault {
    /// A word that is none, counted from 1.
    Word(usize),
    /// The netlist is no text of data.
    Text(SexprError),
    /// A part of the netlist is at fault.
    Part(BreezeError),
    /// No part is named, and not just one is used by no other. These are the names of those that are not, in the order of the text.
    Top(Vec<Vec<u8>>),
    /// The part that is opened has no net; `part` is the name of the part that the refusal is in, or else of the one that is opened.
    Net { error: ElabError, part: Vec<u8> },
    /// An event of this word, counted from 1, was refused.
    Event { error: NetError, word: usize },
    /// An event of this session or worker of a pool was refused.
    Ended { error: NetError, who: Who },
    /// At the close of a pool this record, share or the front (host 0) disagrees with the journal, a record at the entry of this
    /// number, from 1.
    Discord { who: Who, at: u64 },
    /// A thread of a pool could not be started.
    NoThread,
    /// The reader failed, or gave more than the limit.
    Read,
    /// The writer failed, or took no byte.
    Write,
    Memory,
}

impl Fault {
    /// The exit status of a program that ends with this fault: 1 where the netlist is refused, 2 where a word is bad or a part would
    /// have to be named, 3 for anything else.
    pub fn status(&self) -> u8
        ensures { result ≡ status_of self.now }
    {
        match self {
            Fault::Text(_) | Fault::Part(_) | Fault::Net { .. } => 1,
            Fault::Word(_) => 2,
            Fault::Top(_) => 2,
            Fault::Event { .. } | Fault::Ended { .. } | Fault::Discord { .. } => 3,
            Fault::NoThread | Fault::Read | Fault::Write | Fault::Memory => 3,
        }
    }
}

impl From<InputFault> for Fault {
    ghost from_gives = { λ e fault. fault ≡ of_input e };

    fn from(e: InputFault) -> Fault {
        match e {
            InputFault::Read => Fault::Read,
            InputFault::Memory => Fault::Memory,
        }
    }
}

impl From<SexprError> for Fault {
    ghost from_gives = { λ e fault. fault ≡ of_text e };

    fn from(e: SexprError) -> Fault {
        match e {
            SexprError::Memory => Fault::Memory,
            e => Fault::Text(e),
        }
    }
}

impl From<BreezeError> for Fault {
    ghost from_gives = { λ e fault. fault ≡ of_part e };

    fn from(e: BreezeError) -> Fault {
        match e {
            BreezeError::Memory => Fault::Memory,
            e => Fault::Part(e),
        }
    }
}

impl From<WriteFault> for Fault {
    ghost from_gives = { λ _ fault. fault ≡ Write };

    fn from(_e: WriteFault) -> Fault {
        Fault::Write
    }
}

impl From<SessionError> for Fault {
    ghost from_gives = { λ e fault. fault ≡ of_words e };

    fn from(e: SessionError) -> Fault {
        match e {
            SessionError::BadWord(word) => Fault::Word(word),
            SessionError::Event(error) => Fault::Event { error, word: 0 },
            SessionError::Memory => Fault::Memory,
        }
    }
}

impl From<AllocError> for Fault {
    ghost from_gives = { λ _ fault. fault ≡ Memory };

    fn from(_e: AllocError) -> Fault {
        Fault::Memory
    }
}

impl<T: Drop> From<AllocFailed<T>> for Fault {
    ghost from_gives = { λ _ fault. fault ≡ Memory };

    fn from(_e: AllocFailed<T>) -> Fault {
        Fault::Memory
    }
}

impl fmt::Display for Fault {
    fn fmt<W: fmt::Write>(&self, f: &mut fmt::Formatter<W>) -> fmt::Result {
        match self {
            Fault::Word(word) => write!(f, "H1 BadWord {word}"),
            Fault::Text(error) => write!(f, "{error}"),
            Fault::Part(error) => match error.place() {
                Some(place) => write!(f, "{error} {} {}", name_at(place), place.at),
                None => write!(f, "{error}"),
            },
            Fault::Top(names) => show_tops(names.as_slice(), f),
            Fault::Net { error, part } => show_net_error(*error, NameForm(part.as_slice()), f),
            Fault::Event { error, word } => write!(f, "{error} word {word}"),
            Fault::Ended { error, who } => write!(f, "{error} {}", Letter(*who)),
            Fault::Discord { who, at } => write!(f, "C1 Discord {} {at}", Letter(*who)),
            Fault::NoThread => f.write_str("P3 NoThread"),
            Fault::Read => f.write_str("F1 Read"),
            Fault::Write => f.write_str("F2 Write"),
            Fault::Memory => f.write_str("F3 Memory"),
        }
    }
}

// A session as `h1`, a worker as `w1`.
#[derive(Clone, Copy)]
struct Letter(Who);

impl fmt::Display for Letter {
    fn fmt<W: fmt::Write>(&self, f: &mut fmt::Formatter<W>) -> fmt::Result {
        match self.0 {
            Who::Host(number) => write!(f, "h{number}"),
            Who::Worker(number) => write!(f, "w{number}"),
        }
    }
}

// The name of the part at fault; a part without a name is shown as one whose name is empty.
fn name_at(place: &ByteAt) -> NameForm<'_> {
    match &place.part {
        Some(name) => NameForm(name.as_slice()),
        None => NameForm(&[]),
    }
}

// The names of the parts that no other uses, where not just one is, and none is named.
fn show_tops<W: fmt::Write>(names: &[Vec<u8>], f: &mut fmt::Formatter<W>) -> fmt::Result {
    if names.is_empty() {
        return f.write_str("--part is missing, and the netlist has no part that no other uses");
    }
    f.write_str("--part is missing, and no other part uses any of these:")?;
    for name in names.iter().take(MOST_NAMES) {
        write!(f, " {}", NameForm(name.as_slice()))?;
    }
    let more = names.len().saturating_sub(MOST_NAMES);
    if more > 0 {
        write!(f, " and {more} more")?;
    }
    Ok(())
}

// A refusal of elaboration, with the part told by its name.
fn show_net_error<W: fmt::Write>(
    error: ElabError,
    part: NameForm<'_>,
    f: &mut fmt::Formatter<W>,
) -> fmt::Result {
    let (refusal, position) = match error {
        ElabError::NoPart => ("E1 NoPart", None),
        ElabError::Recursive(_) => ("E2 Recursive", None),
        ElabError::UnknownComponent(_, position) => ("E4 UnknownComponent", Some(position)),
        ElabError::BadParameter(_, position) => ("E5 BadParameter", Some(position)),
        ElabError::PortCount(_, position) => ("E6 PortCount", Some(position)),
        ElabError::BadChannel(_, position) => ("E7 BadChannel", Some(position)),
        ElabError::KindMismatch(_, position) => ("E9 KindMismatch", Some(position)),
        ElabError::WidthMismatch(_, position) => ("E10 WidthMismatch", Some(position)),
        ElabError::TooDeep
        | ElabError::TooBig
        | ElabError::TwoEnds(_)
        | ElabError::LooseEnd(_)
        | ElabError::PortSense(_)
        | ElabError::Memory => return write!(f, "{error}"),
    };
    match position {
        Some(position) => write!(f, "{refusal} {part} {position}"),
        None => write!(f, "{refusal} {part}"),
    }
}
