//! A command that was asked for, with the options of it.

use crate::options::{
    FUEL_BY_DEFAULT, HOPS_BY_DEFAULT, JOURNAL_BY_DEFAULT, MOST_BY_DEFAULT, WORKERS_BY_DEFAULT,
};
use clap::ArgMatches;

/// A command of the program, with its options.
#[derive(Clone, Copy)]
pub enum Command<'a> {
    Run(RunOptions<'a>),
    Explore(ExploreOptions<'a>),
    Check(CheckOptions<'a>),
    /// Of which the trace is the short one.
    Complete(CompleteOptions<'a>),
    Waits(WaitsOptions<'a>),
    List(ListOptions),
    Lint(LintOptions),
    Parts,
    Kinds(FormatOptions),
    Draw(DrawOptions<'a>),
    Chart(ChartOptions<'a>),
    Page(TraceOptions<'a>),
    Pool(PoolOptions<'a>),
    Test(TestOptions<'a>),
}

/// The options of `run`.
#[derive(Clone, Copy)]
pub struct RunOptions<'a> {
    /// The most entries of the journal.
    pub journal: u32,
    /// Whether the run stops at a host command that is not done.
    pub strict: bool,
    /// The file to which is written what the run exercised, if that is asked for.
    pub cover: Option<&'a str>,
    /// Where the words come from, if they don't stand on the command line.
    pub word_file: Option<Source<'a>>,
}

/// The options of `check`.
#[derive(Clone, Copy)]
pub struct CheckOptions<'a> {
    /// Where the trace comes from, if it doesn't come after the netlist.
    pub trace: Option<Source<'a>>,
    /// The file to which is written what the run exercised, if that is asked for.
    pub cover: Option<&'a str>,
    /// Whether no more of the trace is read once a line is that of no run.
    pub first: bool,
    /// Whether a run has to end at rest.
    pub to_rest: bool,
    /// Whether several traces are named, each of which is checked by itself.
    pub several: bool,
    /// Whether these are pieces of one run.
    pub joined: bool,
    /// Whether JSON is asked for.
    pub json: bool,
    /// Where the names of the traces come from, if they don't stand on the command line.
    pub traces_from: Option<Source<'a>>,
}

/// The options of `explore`.
#[derive(Clone, Copy)]
pub struct ExploreOptions<'a> {
    /// The trace behind which it begins, if it doesn't begin at the opening.
    pub trace: Option<Source<'a>>,
    /// The folder below which lines may write files, or `none`, if that is said.
    pub files: Option<&'a str>,
    /// Whether answers are objects of JSON.
    pub json: bool,
}

/// The options of `complete`.
#[derive(Clone, Copy)]
pub struct CompleteOptions<'a> {
    /// Where the short trace comes from.
    pub short: Source<'a>,
    /// Whether the trace has to end at rest.
    pub to_rest: bool,
}

/// The options of another command that reads a trace.
#[derive(Clone, Copy)]
pub struct TraceOptions<'a> {
    /// Where the trace comes from, if it doesn't come after the netlist.
    pub trace: Option<Source<'a>>,
}

/// The options of `waits`.
#[derive(Clone, Copy)]
pub struct WaitsOptions<'a> {
    /// Where the trace comes from, if it doesn't come after the netlist.
    pub trace: Option<Source<'a>>,
    /// The line of the trace behind which it is asked for.
    pub line: Option<u64>,
    /// Whether the status tells that something can never move again.
    pub strict: bool,
    /// The component on which it is asked what it hangs.
    pub comp: Option<u32>,
}

/// The options of `list`.
#[derive(Clone, Copy)]
pub struct ListOptions {
    /// Whether the list has places.
    pub paths: bool,
}

/// The options of `lint`.
#[derive(Clone, Copy)]
pub struct LintOptions {
    /// Whether JSON is asked for.
    pub json: bool,
    /// The most findings that are told.
    pub most: u32,
}

/// The options of `kinds`.
#[derive(Clone, Copy)]
pub struct FormatOptions {
    /// Whether JSON is asked for.
    pub json: bool,
}

/// The options of `draw`.
#[derive(Clone, Copy)]
pub struct DrawOptions<'a> {
    /// Instances within so many others are drawn as boxes.
    pub depth: Option<u32>,
    /// The component around which a net is drawn.
    pub around: Option<u32>,
    /// How many channels away from that component what is drawn may be.
    pub hops: u32,
    /// Where the trace comes from whose state is drawn, if one is.
    pub trace: Option<Source<'a>>,
    /// The line of the trace behind which that is.
    pub line: Option<u64>,
}

/// The options of `chart`.
#[derive(Clone, Copy)]
pub struct ChartOptions<'a> {
    /// Where the trace comes from, if it doesn't come after the netlist.
    pub trace: Option<Source<'a>>,
    /// The first line of the trace that is drawn.
    pub from: Option<u64>,
    /// The last line of it that is drawn.
    pub to: Option<u64>,
    /// What alone is shown, by words with commas between.
    pub only: Option<&'a str>,
    /// Whether the ports are shown, and nothing else that isn't named.
    pub ports: bool,
}

/// The options of `pool`.
#[derive(Clone, Copy)]
pub struct PoolOptions<'a> {
    pub workers: u8,
    /// The most firings of all workers together.
    pub fuel: u64,
    /// The most entries of the journal.
    pub journal: u32,
    /// Whether each session has to come to the end of its words.
    pub strict: bool,
    /// Where the words come from, if they don't stand on the command line.
    pub word_file: Option<Source<'a>>,
}

/// The options of `test`.
#[derive(Clone, Copy)]
pub struct TestOptions<'a> {
    /// Whether a netlist takes the place of those that benches name.
    pub has_netlist: bool,
    pub seeds: SeedsAsked,
    /// The most firings of a play.
    pub fuel: u64,
    /// The most entries of a play.
    pub journal: u32,
    /// The folder in which traces are kept, if that is asked for.
    pub traces: Option<&'a str>,
    /// The file to which is written what the plays exercised, if that is asked for.
    pub cover: Option<&'a str>,
    pub form: TestForm,
    /// Whether what came is written into benches that don't pass.
    pub bless: bool,
}

/// The seeds by which benches are played.
#[derive(Clone, Copy)]
pub enum SeedsAsked {
    None,
    One(u64),
    /// Each from 1 up to this one.
    Upto(u32),
}

/// How `test` tells its cases.
#[derive(Clone, Copy)]
pub enum TestForm {
    Text,
    Json,
    Junit,
}

/// Where a text comes from.
#[derive(Clone, Copy)]
pub enum Source<'a> {
    Stdin,
    File(&'a str),
}

impl<'a> Source<'a> {
    /// The text that a value names: a file, or standard input by `-`.
    pub fn named(value: &'a str) -> Source<'a> {
        match value {
            "-" => Source::Stdin,
            path => Source::File(path),
        }
    }

    /// The name of the file that is read from.
    pub fn file(self) -> Option<&'a str> {
        match self {
            Source::Stdin => None,
            Source::File(path) => Some(path),
        }
    }
}

impl<'a> Command<'a> {
    /// Where the words come from, if the command takes words and they don't stand on the command line.
    pub fn word_file(self) -> Option<Source<'a>> {
        match self {
            Command::Run(options) => options.word_file,
            Command::Pool(options) => options.word_file,
            _ => None,
        }
    }

    /// Where the trace comes from, if the command reads one and it doesn't come after the netlist.
    pub fn trace_file(self) -> Option<Source<'a>> {
        match self {
            Command::Explore(options) => options.trace,
            Command::Check(options) => options.trace,
            Command::Complete(options) => Some(options.short),
            Command::Waits(options) => options.trace,
            Command::Draw(options) => options.trace,
            Command::Chart(options) => options.trace,
            Command::Page(options) => options.trace,
            _ => None,
        }
    }

    /// Where the names of several traces come from, if they don't stand on the command line.
    pub fn trace_names(self) -> Option<Source<'a>> {
        match self {
            Command::Check(options) => options.traces_from,
            _ => None,
        }
    }

    /// Whether what is found of a trace is answered as an object of JSON.
    pub fn answers_findings(self) -> bool {
        matches!(self, Command::Check(options) if options.json)
    }

    /// Whether several traces are named.
    pub fn is_of_several(self) -> bool {
        matches!(self, Command::Check(options) if options.several)
    }

    /// The file to which is written what a run exercised, if that is asked for.
    pub fn cover_file(self) -> Option<&'a str> {
        match self {
            Command::Run(options) => options.cover,
            Command::Check(options) => options.cover,
            _ => None,
        }
    }

    /// The folder below which the lines of a session may write files, or `none`, if that is said.
    pub fn session_files(self) -> Option<&'a str> {
        match self {
            Command::Explore(options) => options.files,
            _ => None,
        }
    }

    /// Whether the command reads a trace, after the netlist where it has none of its own.
    pub fn reads_trace(self) -> bool {
        matches!(
            self,
            Command::Check(_) | Command::Waits(_) | Command::Chart(_) | Command::Page(_)
        )
    }

    /// Whether words are those of the sessions of a pool.
    pub fn is_pool(self) -> bool {
        matches!(self, Command::Pool(_))
    }

    /// Whether it answers objects of JSON, one for each netlist.
    pub fn answers_objects(self) -> bool {
        matches!(self, Command::Lint(options) if options.json)
    }

    /// Whether a net is played by the lines of standard input.
    pub fn is_by_hand(self) -> bool {
        matches!(self, Command::Explore(_))
    }
}

/// The command of a name, with the options that follow it.
pub(crate) fn command_in<'a>(name: &str, matches: &ArgMatches<'a>) -> Option<Command<'a>> {
    Some(match name {
        "run" => Command::Run(run_options(matches)),
        "explore" => Command::Explore(explore_options(matches)),
        "check" => Command::Check(check_options(matches)),
        "complete" => Command::Complete(complete_options(matches)),
        "waits" => Command::Waits(waits_options(matches)),
        "list" => Command::List(ListOptions {
            paths: matches.get_flag("paths"),
        }),
        "lint" => Command::Lint(lint_options(matches)),
        "parts" => Command::Parts,
        "kinds" => Command::Kinds(format_options(matches)),
        "draw" => Command::Draw(draw_options(matches)),
        "chart" => Command::Chart(chart_options(matches)),
        "page" => Command::Page(trace_options(matches)),
        "pool" => Command::Pool(pool_options(matches)),
        "test" => Command::Test(test_options(matches)),
        _ => return None,
    })
}

fn run_options<'a>(matches: &ArgMatches<'a>) -> RunOptions<'a> {
    RunOptions {
        journal: matches.get_one("journal").unwrap_or(JOURNAL_BY_DEFAULT),
        strict: matches.get_flag("strict"),
        cover: matches.get_str("cover"),
        word_file: source_named(matches, "word-file"),
    }
}

fn check_options<'a>(matches: &ArgMatches<'a>) -> CheckOptions<'a> {
    CheckOptions {
        trace: source_named(matches, "trace"),
        cover: matches.get_str("cover"),
        first: matches.get_flag("first"),
        to_rest: matches.get_flag("to-rest"),
        several: matches.get_strs("traces").is_some() || matches.get_str("traces-from").is_some(),
        joined: matches.get_flag("joined"),
        json: format_options(matches).json,
        traces_from: source_named(matches, "traces-from"),
    }
}

fn explore_options<'a>(matches: &ArgMatches<'a>) -> ExploreOptions<'a> {
    ExploreOptions {
        trace: source_named(matches, "trace"),
        files: matches.get_str("session-files"),
        json: format_options(matches).json,
    }
}

fn trace_options<'a>(matches: &ArgMatches<'a>) -> TraceOptions<'a> {
    TraceOptions {
        trace: source_named(matches, "trace"),
    }
}

fn complete_options<'a>(matches: &ArgMatches<'a>) -> CompleteOptions<'a> {
    CompleteOptions {
        short: source_named(matches, "short").unwrap_or(Source::Stdin),
        to_rest: matches.get_flag("to-rest"),
    }
}

fn waits_options<'a>(matches: &ArgMatches<'a>) -> WaitsOptions<'a> {
    WaitsOptions {
        trace: source_named(matches, "trace"),
        line: matches.get_one("line"),
        strict: matches.get_flag("strict"),
        comp: matches.get_one("component"),
    }
}

fn format_options(matches: &ArgMatches<'_>) -> FormatOptions {
    FormatOptions {
        json: matches.get_str("format") == Some("json"),
    }
}

fn lint_options(matches: &ArgMatches<'_>) -> LintOptions {
    LintOptions {
        json: format_options(matches).json,
        most: matches.get_one("most").unwrap_or(MOST_BY_DEFAULT),
    }
}

fn draw_options<'a>(matches: &ArgMatches<'a>) -> DrawOptions<'a> {
    DrawOptions {
        depth: matches.get_one("depth"),
        around: matches.get_one("around"),
        hops: matches.get_one("hops").unwrap_or(HOPS_BY_DEFAULT),
        trace: source_named(matches, "trace"),
        line: matches.get_one("line"),
    }
}

fn chart_options<'a>(matches: &ArgMatches<'a>) -> ChartOptions<'a> {
    ChartOptions {
        trace: source_named(matches, "trace"),
        from: matches.get_one("from"),
        to: matches.get_one("to"),
        only: matches.get_str("only"),
        ports: matches.get_flag("ports"),
    }
}

fn pool_options<'a>(matches: &ArgMatches<'a>) -> PoolOptions<'a> {
    PoolOptions {
        workers: matches.get_one("workers").unwrap_or(WORKERS_BY_DEFAULT),
        fuel: matches.get_one("fuel").unwrap_or(FUEL_BY_DEFAULT),
        journal: matches.get_one("journal").unwrap_or(JOURNAL_BY_DEFAULT),
        strict: matches.get_flag("strict"),
        word_file: source_named(matches, "word-file"),
    }
}

fn test_options<'a>(matches: &ArgMatches<'a>) -> TestOptions<'a> {
    TestOptions {
        has_netlist: matches.get_str("netlist").is_some(),
        seeds: seeds_in(matches),
        fuel: matches.get_one("fuel").unwrap_or(FUEL_BY_DEFAULT),
        journal: matches.get_one("journal").unwrap_or(JOURNAL_BY_DEFAULT),
        traces: matches.get_str("traces"),
        cover: matches.get_str("cover"),
        form: match matches.get_str("format") {
            Some("json") => TestForm::Json,
            Some("junit") => TestForm::Junit,
            _ => TestForm::Text,
        },
        bless: matches.get_flag("bless"),
    }
}

fn seeds_in(matches: &ArgMatches<'_>) -> SeedsAsked {
    match (matches.get_one("seed"), matches.get_one("seeds")) {
        (Some(seed), _) => SeedsAsked::One(seed),
        (None, Some(last)) => SeedsAsked::Upto(last),
        (None, None) => SeedsAsked::None,
    }
}

/// Where the text of an option comes from, if it is given.
pub(crate) fn source_named<'a>(matches: &ArgMatches<'a>, option: &str) -> Option<Source<'a>> {
    matches.get_str(option).map(|value| Source::named(value))
}
