//! The command `test`, as the command line asks for it.

ghost use Rattle.std.specs.Prelude.{◌≡◌, is_some, length};
ghost use Rattle.bz_cli_bench.specs.Cases.{Tests};
ghost use Rattle.bz_cli_commands.specs.Endings.{seeds_asked};
ghost use Rattle.bz_cli_input.specs.Reading.{ReadsWithin};
ghost use Rattle.bz_words.specs.Words.{texts};

use bz_cli_args::{Given, SeedsAsked, TestForm, TestOptions};
use bz_cli_bench::{Asked, BenchFiles, Form, Seeds, is_trace_there, test_cmd};
use bz_cli_input::Fault;
use std::alloc::{AllocError, Global};
use std::io::{Read, Write};

/// Plays benches, whose files are the words, and tells what each case came to. That a trace could not be kept goes to `errors`.
pub fn test<R: Read, F: BenchFiles, W: Write, E: Write>(
    alloc: Global,
    given: &Given<'_, '_>,
    options: TestOptions<'_>,
    input: &mut R,
    files: &mut F,
    output: &mut W,
    errors: &mut E,
) -> Result<u8, Fault>
    ensures tests { Tests (seeds_asked options.entry.seeds) (length (texts given.now.words.now)) (is_some options.entry.cover) result }

    // Whatever comes of it, it reads at most one byte past the limit.
    ensures bounded { ReadsWithin (R.remaining input.old) (R.remaining input.new) }
{
    let asked = Asked {
        benches: given.words,
        netlist: if options.has_netlist {
            Some(given.file.unwrap_or("-"))
        } else {
            None
        },
        part: given.part,
        seeds: seeds_of(options.seeds),
        fuel: options.fuel,
        journal: options.journal,
        traces: options.traces,
        cover: options.cover,
        form: form_of(options.form),
        blesses: options.bless,
    };
    test_cmd(alloc, asked, input, files, output, errors)
}

/// Tells the first file that is there already of those in which traces of benches may have to be kept; whether there is one.
pub fn has_traces<F: BenchFiles, E: Write>(
    alloc: Global,
    given: &Given<'_, '_>,
    options: TestOptions<'_>,
    files: &mut F,
    errors: &mut E,
) -> Result<bool, AllocError> {
    match options.traces {
        Some(folder) => {
            let seeds = seeds_of(options.seeds);
            is_trace_there(alloc, folder, given.words, seeds, files, errors)
        }
        None => Ok(false),
    }
}

fn seeds_of(seeds: SeedsAsked) -> Seeds
    ensures { result ≡ seeds_asked seeds }
{
    match seeds {
        SeedsAsked::None => Seeds::Without,
        SeedsAsked::One(seed) => Seeds::One(seed),
        SeedsAsked::Upto(last) => Seeds::Upto(last),
    }
}

fn form_of(form: TestForm) -> Form {
    match form {
        TestForm::Text => Form::Text,
        TestForm::Json => Form::Json,
        TestForm::Junit => Form::Junit,
    }
}
