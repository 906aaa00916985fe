//! What the records of a text say of names, and of the source that they come from.

ghost use Rattle.std.specs.Prelude.{◌≡◌, drop, map, IfOk, IsTrue};
ghost use Rattle.std.specs.Option.{option_copied, option_map};
ghost use Rattle.bz_sexpr.specs.Forms.{form_view, forms_view, text_view};
ghost use Rattle.bz_text.specs.Pieces.{piece_text};
ghost use Rattle.bz_text.specs.Writing.{Writes};
ghost use Rattle.bz_source.specs.Labels.{behind, chan_name, comp_source, first_name, first_source, label_text, labels, name_in, name_note, named, placed, source_in, source_note};
ghost use Rattle.bz_source.specs.Views.{label_of, labels_of_part, mark_at, source_at, written_at};

use crate::lines::{headed, inside};
use bz_sexpr::{Form, Forms, Leaf, Shape, Text};
use bz_text::{Piece, WriteFault, put_pieces};
use std::alloc::{AllocError, Global};
use std::io::Write;
use std::rc::Rc;

/// What stands in a channel's record before its members is its head.
const CHANNEL_FIELDS: usize = 1;

/// Before those of a component's stand its head, its name, its parameters and its entries.
const COMPONENT_FIELDS: usize = 4;

/// The greatest line and column that a member may name.
const MOST_LINE: u128 = 4_294_967_295;

/// Of the records of a part, in order: what its channels are called, and where its channels and components come from.
#[derive(Drop)]
pub struct Labels {
    pub names: Vec<Option<Vec<u8>>>,
    pub channels: Vec<Option<SourceMark>>,
    pub components: Vec<Option<SourceMark>>,
}

/// A place in a compiler's source, as it is kept: records of one file that follow one another share its name.
#[derive(Drop)]
pub struct SourceMark {
    pub file: Rc<Vec<u8>>,
    pub line: u32,
    pub column: u32,
}

/// A place in a compiler's source.
#[derive(Clone, Copy)]
pub struct SourceAt<'a> {
    pub file: &'a [u8],
    pub line: u32,
    pub column: u32,
}

/// What a channel or a component of a net is called, and where it comes from.
#[derive(Clone, Copy)]
pub struct Label<'a> {
    pub name: Option<&'a [u8]>,
    pub source: Option<SourceAt<'a>>,
}

// A place in a compiler's source, as a record of the text has it.
#[derive(Clone, Copy)]
struct WrittenSource<'d> {
    file: Text<'d>,
    line: u32,
    column: u32,
}

impl SourceMark {
    pub fn at(&self) -> SourceAt<'_>
        ensures { source_at result ≡ mark_at self.now }
    {
        SourceAt {
            file: self.file.as_ref().as_slice(),
            line: self.line,
            column: self.column,
        }
    }
}

/// Writes a label, from ` name ` and from ` from ` on, where there are such.
pub fn put_label<W: Write>(out: &mut W, label: Label<'_>) -> Result<(), WriteFault>
    ensures { Writes (W.contents out.old) (W.contents out.new) result (label_text (label_of label.entry)) }
{
    put_pieces(out, &[name_piece(label.name), source_piece(label.source)])
}

/// What a channel or a component is called, as a piece of a line, empty where it has no name.
pub fn name_piece(name: Option<&[u8]>) -> Piece<'_>
    ensures { piece_text result ≡ name_note (option_copied name.entry) }
{
    match name {
        Some(name) => Piece::Called(name),
        None => Piece::Bytes(b""),
    }
}

/// Where a channel or a component comes from, as a piece of a line, empty where that is not known.
pub fn source_piece(at: Option<SourceAt<'_>>) -> Piece<'_>
    ensures { piece_text result ≡ source_note (option_map source_at at.entry) }
{
    match at {
        Some(at) => Piece::From(at.file, at.line, at.column),
        None => Piece::Bytes(b""),
    }
}

/// The labels of a part, by the members of its lists of channels and of components.
pub(crate) fn labels_of(
    alloc: Global,
    channels: Forms<'_>,
    components: Forms<'_>,
) -> Result<Labels, AllocError>
    ensures { IfOk result (λ l. labels_of_part l ≡ labels (forms_view channels.entry) (forms_view components.entry)) }
{
    Ok(Labels {
        names: names_of(alloc, channels)?,
        channels: sources_of(alloc, channels, CHANNEL_FIELDS)?,
        components: sources_of(alloc, components, COMPONENT_FIELDS)?,
    })
}

fn names_of(alloc: Global, channels: Forms<'_>) -> Result<Vec<Option<Vec<u8>>>, AllocError>
    ensures { IfOk result (λ v. map (option_map (λ name. name.items)) v.items ≡ map chan_name (forms_view channels.entry)) }
{
    let mut names = Vec::with_capacity(alloc, channels.len())?;
    let mut rest = channels;
    while let Some((channel, after)) = rest.split_first() {
        names.push(name_of(alloc, channel)?)?;
        rest = after;
    }
    Ok(names)
}

/// The name of a channel, by the first member of its record that gives one.
pub(crate) fn name_of(alloc: Global, channel: Form<'_>) -> Result<Option<Vec<u8>>, AllocError>
    ensures { IfOk result (λ o. option_map (λ name. name.items) o ≡ chan_name (form_view channel.entry)) }
{
    match first_name(behind(channel, CHANNEL_FIELDS)) {
        Some(name) => Ok(Some(name.bytes(alloc)?)),
        None => Ok(None),
    }
}

fn first_name(members: Forms<'_>) -> Option<Text<'_>>
    ensures { option_map text_view result ≡ first_name (forms_view members.entry) }
{
    let mut rest = members;
    while let Some((member, after)) = rest.split_first() {
        if let Some(name) = name_in(member) {
            return Some(name);
        }
        rest = after;
    }
    None
}

fn name_in(member: Form<'_>) -> Option<Text<'_>>
    ensures { option_map text_view result ≡ name_in (form_view member.entry) }
{
    match headed(b"name", member) {
        Some(items) => named(items),
        None => None,
    }
}

// Of `TEXT ..` the text.
fn named(items: Forms<'_>) -> Option<Text<'_>>
    ensures { option_map text_view result ≡ named (forms_view items.entry) }
{
    let (name, _) = items.split_first()?;
    match name.shape() {
        Shape::Leaf(Leaf::Text(name)) => Some(name),
        _ => None,
    }
}

// Where records come from, each having so many data before its members.
fn sources_of(
    alloc: Global,
    records: Forms<'_>,
    fields: usize,
) -> Result<Vec<Option<SourceMark>>, AllocError>
    ensures { IfOk result (λ v. map (option_map mark_at) v.items ≡ map (λ d. first_source (behind fields d)) (forms_view records.entry)) }
{
    let mut sources = Vec::with_capacity(alloc, records.len())?;
    let mut file = None;
    let mut rest = records;
    while let Some((item, after)) = rest.split_first() {
        let source = first_source(behind(item, fields));
        sources.push(mark_of(alloc, source, &mut file)?)?;
        rest = after;
    }
    Ok(sources)
}

/// Where a component comes from, as its record has it.
pub(crate) fn comp_mark_of(
    alloc: Global,
    component: Form<'_>,
) -> Result<Option<SourceMark>, AllocError>
    ensures { IfOk result (λ mark. option_map mark_at mark ≡ comp_source (form_view component.entry)) }
{
    let source = first_source(behind(component, COMPONENT_FIELDS));
    mark_of(alloc, source, &mut None)
}

// A source as it is kept. `file` is that of the record before, and then that of this one.
fn mark_of(
    alloc: Global,
    source: Option<WrittenSource<'_>>,
    file: &mut Option<Rc<Vec<u8>>>,
) -> Result<Option<SourceMark>, AllocError>
    ensures { IfOk result (λ mark. option_map mark_at mark ≡ option_map written_at source.entry) }
{
    match source {
        Some(source) => Ok(Some(SourceMark {
            file: shared(alloc, file, source.file.bytes(alloc)?)?,
            line: source.line,
            column: source.column,
        })),
        None => Ok(None),
    }
}

// The name of a file, the last one itself where it is the same.
fn shared(
    alloc: Global,
    last: &mut Option<Rc<Vec<u8>>>,
    name: Vec<u8>,
) -> Result<Rc<Vec<u8>>, AllocError>
    ensures { IfOk result (λ file. file.value.items ≡ name.items) }
{
    if let Some(last) = last {
        if has_name(last, name.as_slice()) {
            return another(last);
        }
    }
    let file = Rc::new(alloc, name)?;
    *last = Some(file.clone()?);
    Ok(file)
}

fn has_name(file: &Rc<Vec<u8>>, name: &[u8]) -> bool
    ensures { IsTrue result → file.now.value.items ≡ name.now }
{
    file.as_ref().as_slice() == name
}

fn another(file: &Rc<Vec<u8>>) -> Result<Rc<Vec<u8>>, AllocError>
    ensures { IfOk result (λ copy. copy.value.items ≡ file.now.value.items) }
{
    file.clone()
}

fn first_source(members: Forms<'_>) -> Option<WrittenSource<'_>>
    ensures { option_map written_at result ≡ first_source (forms_view members.entry) }
{
    let mut rest = members;
    while let Some((member, after)) = rest.split_first() {
        if let Some(source) = source_in(member) {
            return Some(source);
        }
        rest = after;
    }
    None
}

fn source_in(member: Form<'_>) -> Option<WrittenSource<'_>>
    ensures { option_map written_at result ≡ source_in (form_view member.entry) }
{
    match headed(b"at", member) {
        Some(items) => placed(items),
        None => None,
    }
}

// Of `LINE COLUMN TEXT ..` the three, where both numbers are below 2^32.
fn placed(items: Forms<'_>) -> Option<WrittenSource<'_>>
    ensures { option_map written_at result ≡ placed (forms_view items.entry) }
{
    let (line, rest) = items.split_first()?;
    let (column, rest) = rest.split_first()?;
    let (file, _) = rest.split_first()?;
    match (line.shape(), column.shape(), file.shape()) {
        (
            Shape::Leaf(Leaf::Num(line)),
            Shape::Leaf(Leaf::Num(column)),
            Shape::Leaf(Leaf::Text(file)),
        ) if line <= MOST_LINE && column <= MOST_LINE => Some(WrittenSource {
            file,
            line: line as u32,
            column: column as u32,
        }),
        _ => None,
    }
}

// The data of a record behind the first ones; none where it is no list.
fn behind(item: Form<'_>, count: usize) -> Forms<'_>
    ensures { forms_view result ≡ behind count (form_view item.entry) }
{
    match inside(item) {
        Some(items) => after(items, count),
        None => Forms::Data(&[]),
    }
}

fn after(items: Forms<'_>, count: usize) -> Forms<'_>
    ensures { forms_view result ≡ drop count (forms_view items.entry) }
{
    let mut rest = items;
    for _ in 0..count {
        rest = after_first(rest);
    }
    rest
}

fn after_first(items: Forms<'_>) -> Forms<'_>
    ensures { forms_view result ≡ drop 1 (forms_view items.entry) }
{
    match items.split_first() {
        Some((_, rest)) => rest,
        None => items,
    }
}
