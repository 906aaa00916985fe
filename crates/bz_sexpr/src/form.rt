//! Data as they are read: those of a tree, or those that the nodes of a text stand for.

ghost use Rattle.std.specs.Prelude.{◌≡◌, length, true, false, IfSome, IsSome, Some, None};
ghost use Rattle.bz_sexpr.specs.Data.{leaf_of, num, symbol};
ghost use Rattle.bz_sexpr.specs.Nodes.{row, forest, leaf_in, unmarked};
ghost use Rattle.bz_sexpr.specs.Rows.{nodes_seen};

use crate::bytes::{number, plain, short_number, unquoted};
use crate::node::Node;
use crate::nodes::NodeRow;
use crate::{Datum, Span};
use std::alloc::{AllocError, Global};

/// Data that nodes of a text stand for.
#[derive(Clone, Copy)]
pub struct NodeForms<'t> {
    pub(crate) text: &'t [u8],
    pub(crate) nodes: NodeRow<'t>,
    /// How many data.
    pub(crate) len: usize,
    ghost laid: { nodes_seen nodes ≡ row (forest text.now (nodes_seen nodes)) },
    ghost counted: { len ≡ length (forest text.now (nodes_seen nodes)) },
}

/// A datum that a node of a text stands for, with the nodes of the data in it.
#[derive(Clone, Copy)]
pub struct NodeForm<'t> {
    pub(crate) text: &'t [u8],
    pub(crate) node: Node,
    pub(crate) inner: NodeRow<'t>,
    ghost laid: { nodes_seen inner ≡ row (forest text.now (nodes_seen inner)) },
    ghost counted: { node.count ≡ length (forest text.now (nodes_seen inner)) },
}

/// Data in a row.
#[derive(Clone, Copy)]
pub enum Forms<'t> {
    Data(&'t [Datum]),
    Nodes(NodeForms<'t>),
}

/// A datum.
#[derive(Clone, Copy)]
pub enum Form<'t> {
    Datum(&'t Datum),
    Node(NodeForm<'t>),
}

/// The bytes of a text.
#[derive(Clone, Copy)]
pub enum Text<'t> {
    Plain(&'t [u8]),
    /// As they stand between the quotes.
    Quoted(&'t [u8]),
}

/// A datum that is no list.
#[derive(Clone, Copy)]
pub enum Leaf<'t> {
    Num(u128),
    /// `#t` or `#f`.
    Truth(bool),
    Text(Text<'t>),
    Symbol(&'t [u8]),
}

/// What a datum is.
#[derive(Clone, Copy)]
pub enum Shape<'t> {
    Leaf(Leaf<'t>),
    Items(Forms<'t>),
}

// Whether a piece of a text spells a list.
#[inline(always)]
fn opens_list(piece: &[u8]) -> bool
    ensures list { result ≡ true → leaf_in piece.now ≡ None }
    ensures leaf { result ≡ false → IsSome (leaf_in piece.now) }
{
    match piece.split_first() {
        Some((first, _)) => *first == b'(',
        None => false,
    }
}

// Whether a run begins with the byte that a truth value begins with.
#[inline(always)]
fn begins_with_mark(run: &[u8]) -> bool
    ensures { result ≡ false → leaf_of run.now ≡ unmarked run.now }
{
    match run.split_first() {
        Some((first, _)) => *first == b'#',
        None => false,
    }
}

// The number that a piece spells, where it has up to nine digits and is one. None tells nothing.
#[inline(always)]
fn short_run(piece: &[u8]) -> Option<u32>
    ensures { IfSome result (λ n. leaf_in piece.now ≡ Some (num n)) }
{
    let (first, _) = piece.split_first()?;
    if *first < b'0' || piece.len() > 9 {
        return None;
    }
    short_number(piece)
}

// The piece, where it begins with a small letter. None tells nothing.
#[inline(always)]
fn word(piece: &[u8]) -> Option<&[u8]>
    ensures { IfSome result (λ s. leaf_in piece.now ≡ Some (symbol s.now)) }
{
    let (first, _) = piece.split_first()?;
    if *first < b'a' {
        return None;
    }
    Some(piece)
}

impl<'t> NodeForms<'t> {
    ghost use Rattle.std.specs.Option.{option_map};
    ghost use Rattle.bz_sexpr.specs.Forms.{forms_view, first_and_rest};

    #[inline(always)]
    fn split_first(self) -> Option<(NodeForm<'t>, NodeForms<'t>)>
        ensures { first_and_rest (option_map (λ p. (Form.Node p.0, Forms.Nodes p.1)) result) ≡ forms_view (Forms.Nodes self.entry) }
    {
        let (node, behind) = self.nodes.split_first()?;
        let (inner, nodes) = behind.split_at(node.size);
        let text = self.text;
        let len = self.len - 1;
        Some((
            NodeForm { text, node, inner },
            NodeForms { text, nodes, len },
        ))
    }
}

impl<'t> NodeForm<'t> {
    ghost use Rattle.std.specs.Option.{option_map};
    ghost use Rattle.bz_sexpr.specs.Data.{span_of};
    ghost use Rattle.bz_sexpr.specs.Forms.{form_view, forms_view, items_in, shape_view};

    #[inline(always)]
    fn shape(self) -> Shape<'t>
        ensures { shape_view result (span_of (form_view (Form.Node self.entry))) ≡ form_view (Form.Node self.entry) }
    {
        match Leaf::of_piece(self.node.piece(self.text)) {
            Some(leaf) => Shape::Leaf(leaf),
            None => Shape::Items(Forms::Nodes(NodeForms {
                text: self.text,
                nodes: self.inner,
                len: self.node.inside(),
            })),
        }
    }

    #[inline(always)]
    fn items(self) -> Option<Forms<'t>>
        ensures { option_map forms_view result ≡ items_in (form_view (Form.Node self.entry)) }
    {
        if opens_list(self.node.piece(self.text)) {
            return Some(Forms::Nodes(NodeForms {
                text: self.text,
                nodes: self.inner,
                len: self.node.inside(),
            }));
        }
        None
    }

    fn span(self) -> Span
        ensures { result ≡ span_of (form_view (Form.Node self.entry)) }
    {
        self.node.span()
    }
}

impl<'t> Leaf<'t> {
    ghost use Rattle.std.specs.Option.{option_map};
    ghost use Rattle.bz_sexpr.specs.Data.{leaf_of};
    ghost use Rattle.bz_sexpr.specs.Nodes.{leaf_in};
    ghost use Rattle.bz_sexpr.specs.Forms.{leaf_view};

    /// The leaf that a piece of a text spells, unless it spells a list.
    #[inline(always)]
    pub(crate) fn of_piece(piece: &'t [u8]) -> Option<Leaf<'t>>
        ensures { option_map leaf_view result ≡ leaf_in piece.now }
    {
        let Some((first, after)) = piece.split_first() else {
            return Some(Leaf::Symbol(piece));
        };
        match *first {
            b'(' => None,
            b'"' => {
                let (raw, _quote) = after.split_at(after.len().saturating_sub(1));
                Some(Leaf::Text(Text::Quoted(raw)))
            }
            _ => Some(Leaf::of_run(piece)),
        }
    }

    /// What a run is.
    #[inline(always)]
    fn of_run(run: &'t [u8]) -> Leaf<'t>
        ensures { leaf_view result ≡ leaf_of run.now }
    {
        if begins_with_mark(run) {
            return Leaf::marked(run);
        }
        match number(run) {
            Some(n) => Leaf::Num(n),
            None => Leaf::Symbol(run),
        }
    }

    /// The same, of any run.
    #[tactic(auto, unfolding(crate::specs::Data::leaf_of))]
    #[inline(never)]
    fn marked(run: &'t [u8]) -> Leaf<'t>
        ensures { leaf_view result ≡ leaf_of run.now }
    {
        if run == b"#t".as_slice() {
            Leaf::Truth(true)
        } else if run == b"#f".as_slice() {
            Leaf::Truth(false)
        } else if let Some(n) = number(run) {
            Leaf::Num(n)
        } else {
            Leaf::Symbol(run)
        }
    }
}

impl<'t> Forms<'t> {
    ghost use Rattle.bz_sexpr.specs.Forms.{forms_view, first_and_rest};

    /// How many data.
    pub fn len(self) -> usize
        ensures { result ≡ length (forms_view self.entry) }
    {
        match self {
            Forms::Data(data) => data.len(),
            Forms::Nodes(nodes) => nodes.len,
        }
    }

    /// The first datum and those behind it.
    #[inline(always)]
    pub fn split_first(self) -> Option<(Form<'t>, Forms<'t>)>
        ensures { first_and_rest result ≡ forms_view self.entry }
    {
        match self {
            Forms::Data(data) => {
                let (first, rest) = data.split_first()?;
                Some((Form::Datum(first), Forms::Data(rest)))
            }
            Forms::Nodes(nodes) => {
                let (first, rest) = nodes.split_first()?;
                Some((Form::Node(first), Forms::Nodes(rest)))
            }
        }
    }
}

impl<'t> Shape<'t> {
    ghost use Rattle.std.specs.Option.{option_map};
    ghost use Rattle.bz_sexpr.specs.declared.datum.Span.{Span};
    ghost use Rattle.bz_sexpr.specs.Forms.{forms_view, items_in, shape_view};

    /// The data in a datum of this shape, where it is a list.
    fn items(self) -> Option<Forms<'t>>
        ensures { (span : Span) → option_map forms_view result ≡ items_in (shape_view self.entry span) }
    {
        match self {
            Shape::Items(items) => Some(items),
            Shape::Leaf(_) => None,
        }
    }
}

impl<'t> Form<'t> {
    ghost use Rattle.std.specs.Prelude.{IfSome};
    ghost use Rattle.std.specs.Option.{option_map};
    ghost use Rattle.bz_sexpr.specs.Data.{span_of};
    ghost use Rattle.bz_sexpr.specs.Forms.{form_view, forms_view, items_in, number_at, shape_view, symbol_at};

    #[inline(always)]
    pub fn shape(self) -> Shape<'t>
        ensures { shape_view result (span_of (form_view self.entry)) ≡ form_view self.entry }
    {
        match self {
            Form::Datum(Datum::Num(n, _)) => Shape::Leaf(Leaf::Num(*n)),
            Form::Datum(Datum::Truth(flag, _)) => Shape::Leaf(Leaf::Truth(*flag)),
            Form::Datum(Datum::Text(bytes, _)) => Shape::Leaf(Leaf::Text(Text::Plain(
                bytes.as_slice(),
            ))),
            Form::Datum(Datum::Symbol(name, _)) => Shape::Leaf(Leaf::Symbol(name.as_slice())),
            Form::Datum(Datum::Items(items, _)) => Shape::Items(Forms::Data(items.as_slice())),
            Form::Node(node) => node.shape(),
        }
    }

    /// The data in it, where it is a list.
    #[inline(always)]
    pub fn items(self) -> Option<Forms<'t>>
        ensures { option_map forms_view result ≡ items_in (form_view self.entry) }
    {
        match self {
            Form::Datum(_) => self.shape().items(),
            Form::Node(node) => node.items(),
        }
    }

    /// The number that it is, where it stands in a text and has up to nine digits. None tells nothing.
    #[inline(always)]
    pub fn short_number(self) -> Option<u32>
        ensures { IfSome result (λ n. form_view self.entry ≡ number_at n (span_of (form_view self.entry))) }
    {
        match self {
            Form::Datum(_) => None,
            Form::Node(node) => short_run(node.node.piece(node.text)),
        }
    }

    /// The symbol that it is, where it stands in a text and begins with a small letter. None tells nothing.
    #[inline(always)]
    pub fn word(self) -> Option<&'t [u8]>
        ensures { IfSome result (λ s. form_view self.entry ≡ symbol_at s.now (span_of (form_view self.entry))) }
    {
        match self {
            Form::Datum(_) => None,
            Form::Node(node) => word(node.node.piece(node.text)),
        }
    }

    /// The piece of the text that spells the datum.
    pub fn span(self) -> Span
        ensures { result ≡ span_of (form_view self.entry) }
    {
        match self {
            Form::Datum(datum) => datum.span(),
            Form::Node(node) => node.span(),
        }
    }
}

impl<'t> Text<'t> {
    ghost use Rattle.std.specs.Prelude.{IfOk, IfSome};
    ghost use Rattle.bz_sexpr.specs.Forms.{text_view};

    /// The bytes as they stand in what was read, if they do. None tells nothing.
    #[inline(always)]
    pub fn plain(self) -> Option<&'t [u8]>
        ensures { IfSome result (λ s. s.now ≡ text_view self.entry) }
    {
        match self {
            Text::Plain(bytes) => Some(bytes),
            Text::Quoted(raw) => plain(raw),
        }
    }

    /// A copy of the bytes.
    pub fn bytes(self, alloc: Global) -> Result<Vec<u8>, AllocError>
        ensures { IfOk result (λ v. v.items ≡ text_view self.entry) }
    {
        match self {
            Text::Plain(bytes) => Vec::from_slice(alloc, bytes),
            Text::Quoted(raw) => unquoted(alloc, raw),
        }
    }
}
