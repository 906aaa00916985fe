//! Three texts in a template.

ghost use Rattle.std.specs.Prelude.{◌≡◌};
ghost use Rattle.std.specs.List.{flat_map};
ghost use Rattle.bz_text.specs.Writing.{Writes};
ghost use Rattle.bz_page.specs.Blocks.{block_text};
ghost use Rattle.bz_page.specs.Pages.{blank_of, page_text};

use crate::escaping::put_escaped;
use bz_text::{WriteFault, put};
use std::io::Write;

/// What stands around the texts of a page.
#[derive(Clone, Copy)]
pub struct Template<'t> {
    /// Before the list of the net.
    pub head: &'t str,
    pub before_rows: &'t str,
    pub before_trace: &'t str,
    /// Behind the trace.
    pub tail: &'t str,
}

/// A part of a page: it stands as it is, or escaped.
#[derive(Clone, Copy)]
pub(crate) enum Block<'t> {
    Plain(&'t str),
    Escaped(&'t [u8]),
}

/// Writes a page of these texts.
#[tactic(auto, unfolding(crate::specs::Pages::page_text))]
pub(crate) fn put_around<W: Write>(
    out: &mut W,
    template: Template<'_>,
    list: &[u8],
    rows: &[u8],
    trace: &[u8],
) -> Result<(), WriteFault>
    ensures { Writes (W.contents out.old) (W.contents out.new) result (page_text (blank_of template.entry) list.now rows.now trace.now) }
{
    let blocks = [
        Block::Plain(template.head),
        Block::Escaped(list),
        Block::Plain(template.before_rows),
        Block::Escaped(rows),
        Block::Plain(template.before_trace),
        Block::Escaped(trace),
        Block::Plain(template.tail),
    ];
    put_blocks(out, &blocks)
}

fn put_blocks<W: Write>(out: &mut W, blocks: &[Block<'_>]) -> Result<(), WriteFault>
    ensures { Writes (W.contents out.old) (W.contents out.new) result (flat_map block_text blocks.now) }
{
    for block in blocks {
        put_block(out, *block)?;
    }
    Ok(())
}

fn put_block<W: Write>(out: &mut W, block: Block<'_>) -> Result<(), WriteFault>
    ensures { Writes (W.contents out.old) (W.contents out.new) result (block_text block.entry) }
{
    match block {
        Block::Plain(text) => put(out, text.as_bytes()),
        Block::Escaped(text) => put_escaped(out, text),
    }
}
