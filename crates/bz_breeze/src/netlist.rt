//! Reading the parts of a netlist.

ghost use Rattle.std.specs.Prelude.{◌≡◌, ℕ, ◌∷◌, ◌++◌, [], map, IfOk, IfErr, IfSome, Ok, Some, None};
ghost use Rattle.std.specs.Option.{option_map};
ghost use Rattle.bz_sexpr.specs.Order.{AreInOrder};
ghost use Rattle.bz_sexpr.specs.Forms.{form_view, forms_view};
ghost use Rattle.bz_sexpr.specs.Views.{datum_view};
ghost use Rattle.bz_breeze_records.specs.Records.{part_record};
ghost use Rattle.bz_breeze.specs.Faults.{Fault, HasFault, Tells, fault_of, fault_in};
ghost use Rattle.bz_breeze.specs.Shapes.{AreParts};
ghost use Rattle.bz_breeze.specs.Places.{IsFault, IsLeast};
ghost use Rattle.bz_breeze.specs.Views.{lists_view};
ghost use Rattle.bz_breeze.specs.Parts.{ports_form, channels_form, components_form, headed_form, form, finished, part_of, named_part, after_head, part_items, parts};
ghost use Rattle.bz_breeze_records.specs.Parts.{HasPortChannels};

use crate::error::{BreezeError, ByteAt, Code, Refusal};
use crate::forms::{channels, components, headed, inside, ports};
use crate::name_set::NameSet;
use bz_breeze_records::{Component, Part, Parts};
use bz_model::{Chan, Port};
use bz_sexpr::{Datum, Form, Forms, Leaf, Shape, Span};
use std::alloc::Global;

/// The lists of a part that have come so far.
#[derive(Drop)]
struct Lists {
    ports: Option<Vec<Port>>,
    channels: Option<Vec<Chan>>,
    components: Option<Vec<Component>>,
}

/// The lists with the ports that a form at the byte `at` names.
fn ports_form(alloc: Global, lists: Lists, members: Forms<'_>, at: usize) -> Result<Lists, Refusal>
    ensures ok { IfOk result (λ l. ports_form (lists_view lists) at (forms_view members.entry) ≡ Ok (lists_view l)) }
    ensures err { IfErr result (HasFault (ports_form (lists_view lists) at (forms_view members.entry))) }
{
    if lists.ports.is_some() {
        return Err(Refusal::At(Code::BadForm, at));
    }
    let ports = ports(alloc, members)?;
    Ok(Lists {
        ports: Some(ports),
        ..lists
    })
}

/// The lists with the channels that a form at the byte `at` names.
fn channels_form(
    alloc: Global,
    lists: Lists,
    members: Forms<'_>,
    at: usize,
) -> Result<Lists, Refusal>
    ensures ok { IfOk result (λ l. channels_form (lists_view lists) at (forms_view members.entry) ≡ Ok (lists_view l)) }
    ensures err { IfErr result (HasFault (channels_form (lists_view lists) at (forms_view members.entry))) }
{
    if lists.channels.is_some() {
        return Err(Refusal::At(Code::BadForm, at));
    }
    let channels = channels(alloc, members)?;
    Ok(Lists {
        channels: Some(channels),
        ..lists
    })
}

/// The lists with the components that a form at the byte `at` names.
fn components_form(
    alloc: Global,
    lists: Lists,
    members: Forms<'_>,
    at: usize,
) -> Result<Lists, Refusal>
    ensures ok { IfOk result (λ l. components_form (lists_view lists) at (forms_view members.entry) ≡ Ok (lists_view l)) }
    ensures err { IfErr result (HasFault (components_form (lists_view lists) at (forms_view members.entry))) }
{
    if lists.components.is_some() {
        return Err(Refusal::At(Code::BadForm, at));
    }
    let components = components(alloc, members)?;
    Ok(Lists {
        components: Some(components),
        ..lists
    })
}

/// The lists after a list of the part, which is read where its head is one of three.
fn headed_form(alloc: Global, lists: Lists, items: Forms<'_>, at: usize) -> Result<Lists, Refusal>
    ensures ok { IfOk result (λ l. headed_form (lists_view lists) at (forms_view items.entry) ≡ Ok (lists_view l)) }
    ensures err { IfErr result (HasFault (headed_form (lists_view lists) at (forms_view items.entry))) }
{
    let Some((head, members)) = headed(items) else {
        return Ok(lists);
    };
    if head == b"ports".as_slice() {
        ports_form(alloc, lists, members, at)
    } else if head == b"channels".as_slice() {
        channels_form(alloc, lists, members, at)
    } else if head == b"components".as_slice() {
        components_form(alloc, lists, members, at)
    } else {
        Ok(lists)
    }
}

/// The lists after one more item of the part.
fn form(alloc: Global, lists: Lists, item: Form<'_>) -> Result<Lists, Refusal>
    ensures ok { IfOk result (λ l. form (lists_view lists) (form_view item.entry) ≡ Ok (lists_view l)) }
    ensures err { IfErr result (HasFault (form (lists_view lists) (form_view item.entry))) }
{
    match inside(item) {
        Some(items) => headed_form(alloc, lists, items, item.span().from),
        None => Ok(lists),
    }
}

/// The part of a name that these lists make, with its last byte at `end`.
fn finished(alloc: Global, name: &[u8], lists: Lists, end: usize) -> Result<Part, Refusal>
    ensures ok { IfOk result (λ p. finished name.now end (lists_view lists) ≡ Ok (part_record p)) }
    ensures err { IfErr result (HasFault (finished name.now end (lists_view lists))) }
    ensures name { IfOk result (λ p. p.name.items ≡ name.now) }
    ensures fits { IfOk result HasPortChannels }
{
    let Lists {
        ports,
        channels,
        components,
    } = lists;
    let ports = ports.unwrap_or(Vec::new(alloc));
    let channels = channels.unwrap_or(Vec::new(alloc));
    let components = components.unwrap_or(Vec::new(alloc));
    if channels.len() < ports.len() {
        return Err(Refusal::At(Code::BadForm, end));
    }
    let name = Vec::from_slice(alloc, name)?;
    Ok(Part {
        name,
        ports,
        channels,
        components,
    })
}

/// The part of a name whose forms are these, with its last byte at `end`.
fn part_of(alloc: Global, name: &[u8], forms: Forms<'_>, end: usize) -> Result<Part, Refusal>
    ensures ok { IfOk result (λ p. part_of name.now end (forms_view forms.entry) ≡ Ok (part_record p)) }
    ensures err { IfErr result (HasFault (part_of name.now end (forms_view forms.entry))) }
    ensures name { IfOk result (λ p. p.name.items ≡ name.now) }
    ensures fits { IfOk result HasPortChannels }
{
    let mut lists = Lists {
        ports: None,
        channels: None,
        components: None,
    };
    let mut rest = forms;
    while let Some((item, after)) = rest.split_first() {
        lists = form(alloc, lists, item)?;
        rest = after;
    }
    finished(alloc, name, lists, end)
}

/// What a refusal within the part of this name tells.
fn in_part(alloc: Global, name: &[u8], refusal: Refusal) -> BreezeError
    ensures { IfSome (fault_of result) (λ fault. fault_in name.now refusal ≡ Some fault) }
{
    let Refusal::At(code, at) = refusal else {
        return BreezeError::Memory;
    };
    match Vec::from_slice(alloc, name) {
        Ok(name) => code.at(ByteAt {
            part: Some(name),
            at,
        }),
        Err(_) => BreezeError::Memory,
    }
}

/// A part that is this piece of the text, with what follows its head, where parts of these names come before it.
fn named_part(
    alloc: Global,
    names: &mut NameSet,
    items: Forms<'_>,
    span: Span,
) -> Result<Part, BreezeError>
    ensures ok { IfOk result (λ p. named_part names.old span (forms_view items.entry) ≡ Ok (part_record p)) }
    ensures err { IfErr result (Tells (named_part names.old span (forms_view items.entry))) }
    ensures names { IfOk result (λ p. names.new ≡ names.old ++ p.name.items ∷ []) }
    ensures fits { IfOk result HasPortChannels }
{
    let Some((first, forms)) = items.split_first() else {
        return Err(nameless(span.from));
    };
    let Shape::Leaf(Leaf::Text(name)) = first.shape() else {
        return Err(nameless(span.from));
    };
    let name = name.bytes(alloc)?;
    let name = name.as_slice();
    if !names.insert(alloc, name)? {
        let quote = first.span().from;
        return Err(in_part(alloc, name, Refusal::At(Code::DoublePart, quote)));
    }
    match part_of(alloc, name, forms, span.to.saturating_sub(1)) {
        Ok(part) => Ok(part),
        Err(refusal) => Err(in_part(alloc, name, refusal)),
    }
}

/// The refusal of a part without a name, at the byte `at`.
fn nameless(at: usize) -> BreezeError
    ensures { fault_of result ≡ Some (record { code = Code.BadForm; part = None; at = at }) }
{
    Code::BadForm.at(ByteAt { part: None, at })
}

/// What follows the symbol `breeze-part`.
fn after_head(items: Forms<'_>) -> Option<Forms<'_>>
    ensures { option_map forms_view result ≡ after_head (forms_view items.entry) }
{
    let (head, rest) = headed(items)?;
    if head == b"breeze-part".as_slice() {
        Some(rest)
    } else {
        None
    }
}

/// What follows the head of a list headed by `breeze-part`.
fn part_items(form: Form<'_>) -> Option<Forms<'_>>
    ensures { option_map forms_view result ≡ part_items (form_view form.entry) }
{
    after_head(inside(form)?)
}

/// The parts that the data name, or the fault of `specs/Places.antt` that stands first: of data in the order of a text, as
/// `bz_sexpr::read` answers them, the one at the least byte.
pub fn parts(alloc: Global, netlist: &[Datum]) -> Result<Parts, BreezeError>
    ensures ok { IfOk result (λ ps. parts (map datum_view netlist.now) ≡ Ok (map part_record ps)) }
    ensures named { IfOk result (λ ps. AreParts (map datum_view netlist.now) (map part_record ps)) }
    ensures faultless { IfOk result (λ ps. (fault : Fault) → IsFault (map datum_view netlist.now) fault → ⊥) }
    ensures err { IfErr result (Tells (parts (map datum_view netlist.now))) }
    ensures fault { IfErr result (λ e. IfSome (fault_of e) (IsFault (map datum_view netlist.now))) }
    ensures least { (end : ℕ) → AreInOrder (map datum_view netlist.now) end → IfErr result (λ e. IfSome (fault_of e) (IsLeast (map datum_view netlist.now))) }
{
    parts_of(alloc, Forms::Data(netlist))
}

/// The same of data in a tree or of those of a text's nodes, as `bz_sexpr::read_forest` answers them.
pub fn parts_of(alloc: Global, netlist: Forms<'_>) -> Result<Parts, BreezeError>
    ensures ok { IfOk result (λ ps. parts (forms_view netlist.entry) ≡ Ok (map part_record ps)) }
    ensures named { IfOk result (λ ps. AreParts (forms_view netlist.entry) (map part_record ps)) }
    ensures faultless { IfOk result (λ ps. (fault : Fault) → IsFault (forms_view netlist.entry) fault → ⊥) }
    ensures err { IfErr result (Tells (parts (forms_view netlist.entry))) }
    ensures fault { IfErr result (λ e. IfSome (fault_of e) (IsFault (forms_view netlist.entry))) }
    ensures least { (end : ℕ) → AreInOrder (forms_view netlist.entry) end → IfErr result (λ e. IfSome (fault_of e) (IsLeast (forms_view netlist.entry))) }
{
    read_parts(alloc, netlist)
}

/// The parts that the data name, or the first fault that is met.
fn read_parts(alloc: Global, netlist: Forms<'_>) -> Result<Parts, BreezeError>
    ensures ok { IfOk result (λ ps. parts (forms_view netlist.entry) ≡ Ok (map part_record ps)) }
    ensures err { IfErr result (Tells (parts (forms_view netlist.entry))) }
{
    let mut list = Vec::new(alloc);
    let mut names = NameSet::new(alloc);
    let mut rest = netlist;
    while let Some((form, after)) = rest.split_first() {
        if let Some(items) = part_items(form) {
            let part = named_part(alloc, &mut names, items, form.span())?;
            list.push(part)?;
        }
        rest = after;
    }
    Ok(Parts::new(alloc, list)?)
}
