//! The options of the commands, and their words.

use clap::builder::ValueParser;
use clap::{Arg, ArgAction};
use std::alloc::{AllocError, Global};

/// The longest journal that may be asked for, in entries.
pub const MAX_JOURNAL: u32 = 16_777_216;

/// The most workers of a pool.
pub const MAX_WORKERS: u8 = 8;

/// The most entries of the journal where none is asked for: what `JOURNAL` has as its default.
pub(crate) const JOURNAL_BY_DEFAULT: u32 = 1_000_000;

/// The workers of a pool where no number is asked for: what `WORKERS` has as its default.
pub(crate) const WORKERS_BY_DEFAULT: u8 = 2;

/// The most firings of a pool or of a play of `test` where none is asked for: what `FUEL` has as its default.
pub(crate) const FUEL_BY_DEFAULT: u64 = 1_000_000;

/// The most findings that `lint` tells where no number is asked for: what `MOST` has as its default.
pub(crate) const MOST_BY_DEFAULT: u32 = 20;

/// How many channels away from a component what is drawn may be where no number is asked for: what `HOPS` has as its default.
pub(crate) const HOPS_BY_DEFAULT: u32 = 2;

/// How an option stands on the command line.
#[derive(Clone, Copy)]
enum Name {
    /// By a long name, as `--netlist`.
    Long(&'static str),
    /// By a long name and a letter, as `--part` and `-p`.
    Short(&'static str, char),
    /// By its place alone.
    Place,
    /// By its place alone, and any number of times.
    Words,
}

/// An option of a command, or its words.
#[derive(Clone, Copy)]
pub(crate) struct Opt {
    /// What the program asks for it by.
    id: &'static str,
    name: Name,
    /// What the help calls its value: nothing for a flag.
    value: &'static [&'static str],
    help: &'static str,
    action: ArgAction,
    parser: ValueParser<'static>,
    /// Its value where it is not given, if there is one.
    default: &'static [&'static str],
    /// The options that it can't stand beside.
    conflicts: &'static [&'static str],
    /// The options without which it can't stand.
    needs: &'static [&'static str],
    takes_hyphens: bool,
    is_required: bool,
    is_global: bool,
}

/// An option with a text.
const TEXT: Opt = Opt {
    id: "",
    name: Name::Words,
    value: &["FILE"],
    help: "",
    action: ArgAction::Set,
    parser: ValueParser::String,
    default: &[],
    conflicts: &[],
    needs: &[],
    takes_hyphens: true,
    is_required: false,
    is_global: false,
};

/// An option with a number.
const NUMBER: Opt = Opt {
    value: &["N"],
    takes_hyphens: false,
    ..TEXT
};

/// An option with no value.
const FLAG: Opt = Opt {
    value: &[],
    action: ArgAction::SetTrue,
    parser: ValueParser::Bool,
    takes_hyphens: false,
    ..TEXT
};

pub(crate) const EXPLAIN: Opt = Opt {
    id: "explain",
    name: Name::Long("explain"),
    help: "After a fault, print where it is, what was found and what was expected",
    is_global: true,
    ..FLAG
};

pub(crate) const PART: Opt = Opt {
    id: "part",
    name: Name::Short("part", 'p'),
    value: &["P"],
    help: "The part to open; by default the one that no other part uses, if there is only one",
    ..TEXT
};

pub(crate) const PART_FORM: Opt = Opt {
    id: "part-form",
    name: Name::Long("part-form"),
    value: &["F"],
    help: "The part to open, its name in name form, where %ff is the byte 255",
    conflicts: &["part"],
    ..TEXT
};

pub(crate) const NETLIST: Opt = Opt {
    id: "netlist",
    name: Name::Short("netlist", 'n'),
    help: "Read the netlist from FILE; - is standard input, and the default",
    ..TEXT
};

pub(crate) const REQUIRED_NETLIST: Opt = Opt {
    help: "Read the netlist from FILE",
    is_required: true,
    ..NETLIST
};

pub(crate) const TRACE: Opt = Opt {
    id: "trace",
    name: Name::Long("trace"),
    help: "Read the trace from FILE, not from behind the netlist; - is standard input",
    ..TEXT
};

pub(crate) const BEGUN_TRACE: Opt = Opt {
    help: "Begin behind the trace in FILE; `undo` takes it back",
    ..TRACE
};

pub(crate) const SESSION_FILES: Opt = Opt {
    id: "session-files",
    name: Name::Long("files"),
    value: &["DIR"],
    help: "Let lines write the files below DIR, and no others; none lets them write none",
    ..TEXT
};

pub(crate) const SHORT: Opt = Opt {
    id: "short",
    name: Name::Place,
    value: &["SHORT"],
    help: "Read the short trace from SHORT; - is standard input, and the default",
    takes_hyphens: false,
    ..TEXT
};

pub(crate) const COVER: Opt = Opt {
    id: "cover",
    name: Name::Long("cover"),
    help: "Write what the trace exercised to the new file FILE: as LCOV where it ends in .info, else as JSON",
    ..TEXT
};

pub(crate) const FIRST: Opt = Opt {
    id: "first",
    name: Name::Long("first"),
    help: "Read no more of a trace once a line is that of no run",
    ..FLAG
};

pub(crate) const TRACES: Opt = Opt {
    id: "traces",
    name: Name::Words,
    value: &["TRACES"],
    help: "The traces, each checked by itself, with a line for each; - is standard input",
    action: ArgAction::Append,
    takes_hyphens: false,
    conflicts: &["trace", "traces-from"],
    ..TEXT
};

pub(crate) const TRACES_FROM: Opt = Opt {
    id: "traces-from",
    name: Name::Long("traces-from"),
    help: "Check the traces that FILE names, each on a line or ended by a NUL; - is standard input",
    conflicts: &["trace"],
    ..TEXT
};

pub(crate) const JOINED: Opt = Opt {
    id: "joined",
    name: Name::Long("joined"),
    help: "Check the traces that are named as pieces of one run: each goes on where the one before ended",
    ..FLAG
};

pub(crate) const TO_REST: Opt = Opt {
    id: "to-rest",
    name: Name::Long("to-rest"),
    help: "End with status 1 also where the run does not end at rest",
    ..FLAG
};

pub(crate) const REACHES_REST: Opt = Opt {
    help: "Put in the last takes and gots too, and end with status 1 where something can still move",
    ..TO_REST
};

pub(crate) const WORD_FILE: Opt = Opt {
    id: "word-file",
    name: Name::Short("words", 'w'),
    help: "Read the words from FILE, separated by white space; # starts a comment, - is standard input",
    conflicts: &["words"],
    ..TEXT
};

pub(crate) const PATHS: Opt = Opt {
    id: "paths",
    name: Name::Long("paths"),
    help: "List each channel, instance and component with its place in the text",
    ..FLAG
};

pub(crate) const DEPTH: Opt = Opt {
    id: "depth",
    name: Name::Long("depth"),
    help: "Draw each instance within N others as one box, N from 0 to 4294967295",
    parser: ValueParser::Signed(0, 4_294_967_295),
    ..NUMBER
};

pub(crate) const AROUND: Opt = Opt {
    id: "around",
    name: Name::Long("around"),
    value: &["C"],
    help: "Draw component C and what is near it alone, and no box",
    parser: ValueParser::Signed(1, 4_294_967_295),
    conflicts: &["depth"],
    ..NUMBER
};

pub(crate) const HOPS: Opt = Opt {
    id: "hops",
    name: Name::Long("hops"),
    help: "How many channels away from C what is drawn may be",
    parser: ValueParser::Signed(0, 4_294_967_295),
    default: &["2"],
    needs: &["around"],
    ..NUMBER
};

pub(crate) const FORMAT: Opt = Opt {
    id: "format",
    name: Name::Long("format"),
    value: &["F"],
    help: "How to write it",
    parser: ValueParser::Names(&["text", "json"]),
    default: &["text"],
    takes_hyphens: false,
    ..TEXT
};

pub(crate) const MEANT_PART: Opt = Opt {
    help: "The part that is meant to be used: warn of parts that it does not use",
    ..PART
};

pub(crate) const MOST: Opt = Opt {
    id: "most",
    name: Name::Long("most"),
    help: "The most findings that are told, from 1 to 1000",
    parser: ValueParser::Signed(1, 1000),
    default: &["20"],
    ..NUMBER
};

pub(crate) const FILES: Opt = Opt {
    id: "files",
    name: Name::Words,
    value: &["FILES"],
    help: "The netlists, each looked at by itself; - is standard input",
    action: ArgAction::Append,
    takes_hyphens: false,
    conflicts: &["netlist"],
    ..TEXT
};

pub(crate) const JOURNAL: Opt = Opt {
    id: "journal",
    name: Name::Long("journal"),
    help: "The most entries of the journal, from 1 to 16777216",
    parser: ValueParser::Signed(1, MAX_JOURNAL as i64),
    default: &["1000000"],
    ..NUMBER
};

pub(crate) const STRICT: Opt = Opt {
    id: "strict",
    name: Name::Long("strict"),
    help: "Stop at the first host command that is answered busy, not-yet or not-taken, with status 4",
    ..FLAG
};

pub(crate) const STRICT_WAITS: Opt = Opt {
    help: "End with status 4 where something can never move again",
    ..STRICT
};

pub(crate) const STRICT_POOL: Opt = Opt {
    help: "End with status 4 where a session has not come to the end of its words",
    ..STRICT
};

pub(crate) const WORKERS: Opt = Opt {
    id: "workers",
    name: Name::Long("workers"),
    help: "The number of workers, each on a thread of its own, from 1 to 8",
    parser: ValueParser::Signed(1, MAX_WORKERS as i64),
    default: &["2"],
    ..NUMBER
};

pub(crate) const FUEL: Opt = Opt {
    id: "fuel",
    name: Name::Long("fuel"),
    help: "The most firings of all workers together, from 0 to 18446744073709551615",
    parser: ValueParser::Unsigned(0, u64::MAX),
    default: &["1000000"],
    ..NUMBER
};

pub(crate) const FROM: Opt = Opt {
    id: "from",
    name: Name::Long("from"),
    value: &["L"],
    help: "The first line of the trace to draw; 2 by default, and in place of a smaller L",
    parser: ValueParser::Unsigned(0, u64::MAX),
    ..NUMBER
};

pub(crate) const TO: Opt = Opt {
    id: "to",
    name: Name::Long("to"),
    help: "The last line to draw; by default the last of the trace",
    ..FROM
};

pub(crate) const PAGE_SOURCES: Opt = Opt {
    id: "sources",
    name: Name::Long("source"),
    help: "Put FILE of the compiler's source into the page; several are named by a --source for each",
    action: ArgAction::Append,
    ..TEXT
};

pub(crate) const WAITS_SOURCES: Opt = Opt {
    help: "Write behind each place that is in FILE of the compiler's source the text there; a --source for each file",
    ..PAGE_SOURCES
};

pub(crate) const ONLY: Opt = Opt {
    id: "only",
    name: Name::Long("only"),
    value: &["NAMES"],
    help: "Show these alone, with commas between: component C, channel kN, port P",
    ..TEXT
};

pub(crate) const PORTS: Opt = Opt {
    id: "ports",
    name: Name::Long("ports"),
    help: "Show the ports alone, with what --only names",
    ..FLAG
};

pub(crate) const LINE: Opt = Opt {
    id: "line",
    name: Name::Long("line"),
    help: "The line of the trace behind which it is told; by default the last",
    ..FROM
};

pub(crate) const DRAWN_TRACE: Opt = Opt {
    help: "Show what is on the channels behind a line of the trace in FILE; - is standard input",
    ..TRACE
};

pub(crate) const DRAWN_LINE: Opt = Opt {
    needs: &["trace"],
    help: "The line of the trace behind which it is shown; by default the last",
    ..LINE
};

pub(crate) const COMPONENT: Opt = Opt {
    id: "component",
    name: Name::Place,
    value: &["C"],
    help: "Tell on what component C hangs, by its number",
    parser: ValueParser::Signed(0, 4_294_967_295),
    ..NUMBER
};

pub(crate) const WORDS: Opt = Opt {
    id: "words",
    name: Name::Words,
    value: &["WORDS"],
    help: "offer:P[:V], collect:P, accept:P, answer:P[:V], watch:P or run:N, each as told below",
    action: ArgAction::Append,
    takes_hyphens: false,
    ..TEXT
};

pub(crate) const SESSIONS: Opt = Opt {
    help: "offer:P[:V], collect:P, accept:P, answer:P[:V] or watch:P; a / begins the next session",
    ..WORDS
};

pub(crate) const BENCH_PART: Opt = Opt {
    help: "The part to open, in place of those that the benches name",
    ..PART
};

pub(crate) const BENCH_NETLIST: Opt = Opt {
    help: "Read the netlist from FILE, in place of those that the benches name; - is standard input",
    ..NETLIST
};

pub(crate) const SEED: Opt = Opt {
    id: "seed",
    name: Name::Long("seed"),
    value: &["S"],
    help: "Pick moves and words by seed S, from 0 to 18446744073709551615",
    parser: ValueParser::Unsigned(0, u64::MAX),
    conflicts: &["seeds"],
    ..NUMBER
};

pub(crate) const SEEDS: Opt = Opt {
    id: "seeds",
    name: Name::Long("seeds"),
    help: "Play each bench by the seeds 1 to N, N from 1 to 1000000",
    parser: ValueParser::Signed(1, 1_000_000),
    ..NUMBER
};

pub(crate) const BENCH_FUEL: Opt = Opt {
    help: "The most firings of a play, from 0 to 18446744073709551615",
    ..FUEL
};

pub(crate) const BENCH_JOURNAL: Opt = Opt {
    help: "The most entries of a play, from 1 to 16777216",
    ..JOURNAL
};

pub(crate) const BENCH_TRACES: Opt = Opt {
    id: "traces",
    name: Name::Long("trace"),
    value: &["DIR"],
    help: "Keep the trace of each case that failed as DIR/NAME.trace, with a seed DIR/NAME.S.trace",
    ..TEXT
};

pub(crate) const BENCH_COVER: Opt = Opt {
    help: "Write what the plays exercised to the new file FILE: as LCOV where it ends in .info, else as JSON",
    ..COVER
};

pub(crate) const BENCH_FORM: Opt = Opt {
    parser: ValueParser::Names(&["text", "json", "junit"]),
    ..FORMAT
};

pub(crate) const BLESS: Opt = Opt {
    id: "bless",
    name: Name::Long("bless"),
    help: "Write what came into the benches that do not pass, in place of what was due",
    ..FLAG
};

pub(crate) const BENCHES: Opt = Opt {
    value: &["BENCHES"],
    help: "The files of the benches",
    is_required: true,
    ..WORDS
};

// An argument that stands where the option says.
fn begun<'a>(alloc: Global, option: &Opt) -> Arg<'a> {
    let arg = Arg::new(alloc, option.id);
    match option.name {
        Name::Long(long) => arg.long(long),
        Name::Short(long, short) => arg.long(long).short(short),
        Name::Place => arg,
        Name::Words => arg.num_args(0..),
    }
}

/// The argument that the parser of the command line takes for an option.
pub(crate) fn arg_of<'a>(alloc: Global, option: &Opt) -> Result<Arg<'a>, AllocError> {
    begun(alloc, option)
        .value_names(option.value)
        .help(option.help)
        .action(option.action)
        .value_parser(option.parser)
        .default_values(option.default)
        .allow_hyphen_values(option.takes_hyphens)
        .required(option.is_required)
        .global(option.is_global)
        .conflicts_with_all(option.conflicts)?
        .requires_all(option.needs)
}
