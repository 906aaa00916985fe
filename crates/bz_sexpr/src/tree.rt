//! The data of a text as a tree.

ghost use Rattle.std.specs.Prelude.{◌≡◌, length, map, take, drop, reverse, IfOk, OnOk, IfErr, IfSome};
ghost use Rattle.bz_sexpr.specs.Data.{leaf};
ghost use Rattle.bz_sexpr.specs.Spelling.{Outcome, ComesTo, Spells};
ghost use Rattle.bz_sexpr.specs.Order.{AreInOrder};
ghost use Rattle.bz_sexpr.specs.Views.{datum_view, data_in, outcome_of};
ghost use Rattle.bz_sexpr.specs.Forms.{leaf_view, forest_view};
ghost use Rattle.bz_sexpr.specs.Reading.{IsFault};

use crate::forest::Forest;
use crate::form::Leaf;
use crate::nodes::node_at;
use crate::reader::scan;
use crate::{Datum, SexprError, Span};
use std::alloc::{AllocError, Global};

/// The data that a text spells, or why it spells none, as `read_forest` answers them.
pub fn read(alloc: Global, text: &[u8]) -> Result<Vec<Datum>, SexprError>
    ensures right { IfSome (outcome_of result) (ComesTo text.now) }
    ensures only { (o : Outcome) → ComesTo text.now o → IfSome (outcome_of result) (λ p. p ≡ o) }
    ensures order { IfOk result (λ v. AreInOrder (map datum_view v.items) (length text.now)) }
{
    read_tree(alloc, text)
}

fn read_tree(alloc: Global, text: &[u8]) -> Result<Vec<Datum>, SexprError>
    ensures ok { IfOk result (λ v. Spells text.now (data_in v)) }
    ensures err { IfErr result (IsFault text.now) }
{
    let forest = scan(alloc, text)?;
    Ok(tree(alloc, &forest)?)
}

/// The data of a text, which go from the last node to the first: what a list has in it is made before the list.
fn tree(alloc: Global, forest: &Forest<'_>) -> Result<Vec<Datum>, AllocError>
    ensures { IfOk result (λ v. data_in v ≡ forest_view forest.now) }
{
    // the first datum last
    let mut made = Vec::new(alloc);
    let mut left = forest.nodes.len();
    while left > 0 {
        left -= 1;
        let node = node_at(&forest.nodes, left);
        let datum = match Leaf::of_piece(node.piece(forest.text)) {
            Some(leaf) => lone(alloc, leaf, node.span())?,
            None => Datum::Items(taken(&mut made, node.inside())?, node.span()),
        };
        made.push(datum)?;
    }
    made.reverse();
    Ok(made)
}

/// The first so many data, where the first stands last.
fn taken(made: &mut Vec<Datum>, count: usize) -> Result<Vec<Datum>, AllocError>
    ensures taken { IfOk result (λ v. v.items ≡ take count (reverse made.old.items)) }
    ensures left { OnOk result (reverse made.new.items ≡ drop count (reverse made.old.items)) }
{
    let mut items = made.split_off(made.len().saturating_sub(count))?;
    items.reverse();
    Ok(items)
}

/// A leaf of the tree.
fn lone(alloc: Global, value: Leaf<'_>, span: Span) -> Result<Datum, AllocError>
    ensures { IfOk result (λ d. datum_view d ≡ leaf (leaf_view value.entry) span) }
{
    Ok(match value {
        Leaf::Num(n) => Datum::Num(n, span),
        Leaf::Truth(flag) => Datum::Truth(flag, span),
        Leaf::Text(text) => Datum::Text(text.bytes(alloc)?, span),
        Leaf::Symbol(name) => Datum::Symbol(Vec::from_slice(alloc, name)?, span),
    })
}
