//! The program with its commands.

use crate::help::{
    ALL_COMMANDS, CHART, CHECK, COMPLETE, DRAW, EXPLORE, KINDS, LINT, LIST, PAGE, PARTS, POOL,
    PROGRAM, RUN, TEST, VERSION, WAITS,
};
use crate::options::{
    AROUND, BEGUN_TRACE, BENCH_COVER, BENCH_FORM, BENCH_FUEL, BENCH_JOURNAL, BENCH_NETLIST,
    BENCH_PART, BENCH_TRACES, BENCHES, BLESS, COMPONENT, COVER, DEPTH, DRAWN_LINE, DRAWN_TRACE,
    EXPLAIN, FILES, FIRST, FORMAT, FROM, FUEL, HOPS, JOINED, JOURNAL, LINE, MEANT_PART, MOST,
    NETLIST, ONLY, Opt, PAGE_SOURCES, PART, PART_FORM, PATHS, PORTS, REACHES_REST,
    REQUIRED_NETLIST, SEED, SEEDS, SESSION_FILES, SESSIONS, SHORT, STRICT, STRICT_POOL,
    STRICT_WAITS, TO, TO_REST, TRACE, TRACES, TRACES_FROM, WAITS_SOURCES, WORD_FILE, WORDS,
    WORKERS, arg_of,
};
use clap::{Arg, Command};
use std::alloc::{AllocError, Global};

/// A command of the program.
#[derive(Clone, Copy)]
struct Sub {
    name: &'static str,
    about: &'static str,
    /// What stands behind the options in its help.
    after: &'static str,
    options: &'static [Opt],
}

/// The commands, in the order of the help.
const SUBS: [Sub; 14] = [
    Sub {
        name: "run",
        about: "Play words on a part's net, and write the trace",
        after: RUN,
        options: &[
            PART, PART_FORM, NETLIST, JOURNAL, STRICT, COVER, WORD_FILE, WORDS,
        ],
    },
    Sub {
        name: "explore",
        about: "Play a part's net by hand: each line of standard input has its answer",
        after: EXPLORE,
        options: &[
            PART,
            PART_FORM,
            REQUIRED_NETLIST,
            BEGUN_TRACE,
            SESSION_FILES,
            FORMAT,
        ],
    },
    Sub {
        name: "check",
        about: "Tell whether a trace is that of a run of a part's net",
        after: CHECK,
        options: &[
            PART,
            PART_FORM,
            NETLIST,
            TRACE,
            TRACES_FROM,
            JOINED,
            FIRST,
            TO_REST,
            FORMAT,
            COVER,
            TRACES,
        ],
    },
    Sub {
        name: "complete",
        about: "Make a short trace, of requests and replies alone, the trace of a run of a part's net",
        after: COMPLETE,
        options: &[PART, PART_FORM, NETLIST, REACHES_REST, SHORT],
    },
    Sub {
        name: "waits",
        about: "Tell who waits for whom behind a line of a trace, and since when something is stuck",
        after: WAITS,
        options: &[
            PART,
            PART_FORM,
            NETLIST,
            TRACE,
            LINE,
            STRICT_WAITS,
            WAITS_SOURCES,
            COMPONENT,
        ],
    },
    Sub {
        name: "list",
        about: "List the ports and components of a part's net",
        after: LIST,
        options: &[PART, PART_FORM, NETLIST, PATHS],
    },
    Sub {
        name: "lint",
        about: "Tell all faults of a netlist at once, and what is likely to be a mistake",
        after: LINT,
        options: &[MEANT_PART, PART_FORM, NETLIST, FORMAT, MOST, FILES],
    },
    Sub {
        name: "parts",
        about: "List the parts of a netlist, and which of them are on top",
        after: PARTS,
        options: &[NETLIST],
    },
    Sub {
        name: "kinds",
        about: "Tell the ports of each kind of component, and what it asks of channels and parameters",
        after: KINDS,
        options: &[FORMAT],
    },
    Sub {
        name: "draw",
        about: "Draw a part's net as a graph for Graphviz",
        after: DRAW,
        options: &[
            PART,
            PART_FORM,
            NETLIST,
            DEPTH,
            AROUND,
            HOPS,
            DRAWN_TRACE,
            DRAWN_LINE,
        ],
    },
    Sub {
        name: "chart",
        about: "Draw a trace as SVG, where it is that of a run of a part's net",
        after: CHART,
        options: &[PART, PART_FORM, NETLIST, TRACE, FROM, TO, ONLY, PORTS],
    },
    Sub {
        name: "page",
        about: "Write a web page that plays a trace, where it is that of a run of a part's net",
        after: PAGE,
        options: &[PART, PART_FORM, NETLIST, TRACE, PAGE_SOURCES],
    },
    Sub {
        name: "pool",
        about: "Play words of several sessions beside workers, each on a thread, and write the trace",
        after: POOL,
        options: &[
            PART,
            PART_FORM,
            NETLIST,
            WORKERS,
            FUEL,
            JOURNAL,
            STRICT_POOL,
            WORD_FILE,
            SESSIONS,
        ],
    },
    Sub {
        name: "test",
        about: "Play benches, and tell which of their values did not come",
        after: TEST,
        options: &[
            BENCH_PART,
            PART_FORM,
            BENCH_NETLIST,
            SEED,
            SEEDS,
            BENCH_FUEL,
            BENCH_JOURNAL,
            BENCH_TRACES,
            BENCH_COVER,
            BENCH_FORM,
            BLESS,
            BENCHES,
        ],
    },
];

// The arguments of options.
fn args_of<'a>(alloc: Global, options: &[Opt]) -> Result<Vec<Arg<'a>>, AllocError> {
    let mut args = Vec::new(alloc);
    for option in options {
        push_arg(&mut args, arg_of(alloc, option))?;
    }
    Ok(args)
}

// Adds an argument, where memory sufficed for it. Nothing else is owned here.
fn push_arg<'a>(
    args: &mut Vec<Arg<'a>>,
    arg: Result<Arg<'a>, AllocError>,
) -> Result<(), AllocError> {
    args.push(arg?)?;
    Ok(())
}

fn command_of<'a>(alloc: Global, sub: &Sub) -> Result<Command<'a>, AllocError> {
    let args = args_of(alloc, sub.options)?;
    Command::new(alloc, sub.name)
        .about(sub.about)
        .after_help(sub.after)
        .args(args)
}

fn commands_of<'a>(alloc: Global, subs: &[Sub]) -> Result<Vec<Command<'a>>, AllocError> {
    let mut commands = Vec::new(alloc);
    for sub in subs {
        push_command(&mut commands, command_of(alloc, sub))?;
    }
    Ok(commands)
}

// Adds a command, where memory sufficed for it.
fn push_command<'a>(
    commands: &mut Vec<Command<'a>>,
    command: Result<Command<'a>, AllocError>,
) -> Result<(), AllocError> {
    commands.push(command?)?;
    Ok(())
}

fn program<'a>(alloc: Global) -> Result<Command<'a>, AllocError> {
    let explain = arg_of(alloc, &EXPLAIN)?;
    Command::new(alloc, "breezesim")
        .about(PROGRAM)
        .after_help(ALL_COMMANDS)
        .version(VERSION)
        .subcommand_required(true)
        .arg(explain)
}

/// The program with its commands.
pub fn command_line<'a>(alloc: Global) -> Result<Command<'a>, AllocError> {
    let commands = commands_of(alloc, &SUBS)?;
    program(alloc)?.subcommands(commands)
}
