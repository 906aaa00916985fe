//! The members of a part's lists.

ghost use Rattle.std.specs.Prelude.{◌≡◌, List, [], ◌∷◌, true, map, bytes_eq, codes, IfOk, IfErr, Ok, Some};
ghost use Rattle.std.specs.List.{filter_map};
ghost use Rattle.std.specs.Option.{option_map};
ghost use Rattle.bz_model.specs.Names.{external};
ghost use Rattle.bz_sexpr.specs.Data.{Datum};
ghost use Rattle.bz_sexpr.specs.Forms.{form_view, forms_view, text_view};
ghost use Rattle.bz_breeze_records.specs.Records.{param_record, slot_record, component_record};
ghost use Rattle.bz_breeze.specs.Turns.{inside, head_and_rest, place_of, if_read, at_byte};
ghost use Rattle.bz_breeze.specs.Views.{fields_view};
ghost use Rattle.bz_breeze.specs.Faults.{HasFault};
ghost use Rattle.bz_breeze.specs.Forms.{named_port, listed_port, port, ports, wide_channel, listed_channel, channel, channels, param, number, numbers, slot, slots, named_fields, fields_of, component_of, listed_component, component, components};

use crate::error::{Code, Refusal};
use crate::name_set::NameSet;
use bz_breeze_records::{Component, Entries, Name, Slot};
use bz_gap::gap;
use bz_model::{Chan, ChanKind, MAX_WIDTH, Param, Port};
use bz_sexpr::{Form, Forms, Leaf, Shape, Text};
use std::alloc::{AllocError, Global};

/// The data of a list.
#[inline(always)]
pub(crate) fn inside(form: Form<'_>) -> Option<Forms<'_>>
    ensures { option_map forms_view result ≡ inside (form_view form.entry) }
{
    form.items()
}

/// The symbol at the head of a list, and what follows it.
#[tactic(auto, using(crate::proofs::Heads::headed_by_word))]
#[inline(always)]
pub(crate) fn headed(items: Forms<'_>) -> Option<(&[u8], Forms<'_>)>
    ensures { option_map (λ p. (p.0.now, forms_view p.1)) result ≡ head_and_rest (forms_view items.entry) }
{
    let (first, rest) = items.split_first()?;
    match first.word() {
        Some(head) => Some((head, rest)),
        None => Some((head_of(first)?, rest)),
    }
}

// The symbol that stands at the head of a list, however it begins.
#[inline(never)]
fn head_of(first: Form<'_>) -> Option<&[u8]>
    ensures { (ds : List Datum) → option_map (λ head. (head.now, ds)) result ≡ head_and_rest (form_view first.entry ∷ ds) }
{
    match first.shape() {
        Shape::Leaf(Leaf::Symbol(head)) => Some(head),
        _ => None,
    }
}

/// Of `"NAME" SENSE ..`, the name, and whether the sense is passive.
fn named_port(items: Forms<'_>) -> Result<(Text<'_>, bool), Code>
    ensures { if_read result (λ p. Ok (record { name = text_view p.0; passive = p.1 })) ≡ named_port (forms_view items.entry) }
{
    let Some((name, rest)) = items.split_first() else {
        return Err(Code::BadForm);
    };
    let Shape::Leaf(Leaf::Text(name)) = name.shape() else {
        return Err(Code::BadForm);
    };
    let Some((sense, _)) = headed(rest) else {
        return Err(Code::BadForm);
    };
    if sense == b"passive".as_slice() {
        Ok((name, true))
    } else if sense == b"active".as_slice() {
        Ok((name, false))
    } else {
        Err(Code::BadForm)
    }
}

/// Of `port "NAME" SENSE ..` or `sync-port "NAME" SENSE ..`, the same.
fn listed_port(items: Forms<'_>) -> Result<(Text<'_>, bool), Code>
    ensures { if_read result (λ p. Ok (record { name = text_view p.0; passive = p.1 })) ≡ listed_port (forms_view items.entry) }
{
    let Some((head, rest)) = headed(items) else {
        return Err(Code::BadForm);
    };
    if head == b"port".as_slice() || head == b"sync-port".as_slice() {
        named_port(rest)
    } else if head == b"arrayed-port".as_slice() || head == b"arrayed-sync-port".as_slice() {
        Err(Code::ArrayedPort)
    } else {
        Err(Code::BadForm)
    }
}

/// The name that a member of `ports` gives, and whether the port is passive.
fn port(member: Form<'_>) -> Result<(Text<'_>, bool), Code>
    ensures { if_read result (λ p. Ok (record { name = text_view p.0; passive = p.1 })) ≡ port (form_view member.entry) }
{
    match inside(member) {
        Some(items) => listed_port(items),
        None => Err(Code::BadForm),
    }
}

/// The ports that the members of `ports` name.
pub(crate) fn ports(alloc: Global, members: Forms<'_>) -> Result<Vec<Port>, Refusal>
    ensures ok { IfOk result (λ v. ports (forms_view members.entry) ≡ Ok (map external v.items)) }
    ensures err { IfErr result (HasFault (ports (forms_view members.entry))) }
{
    let mut ports = Vec::with_capacity(alloc, members.len())?;
    let mut names = NameSet::new(alloc);
    let mut rest = members;
    while let Some((member, after)) = rest.split_first() {
        let (name, passive) = match port(member) {
            Ok(port) => port,
            Err(code) => return Err(Refusal::At(code, member.span().from)),
        };
        let name = name.bytes(alloc)?;
        if !names.insert(alloc, name.as_slice())? {
            return Err(Refusal::At(Code::BadForm, member.span().from));
        }
        ports.push(Port { name, passive })?;
        rest = after;
    }
    Ok(ports)
}

/// A channel of this kind, with its width at the front of the rest.
fn wide_channel(kind: ChanKind, rest: Forms<'_>) -> Result<Chan, Code>
    ensures { result ≡ wide_channel kind (forms_view rest.entry) }
{
    let Some((width, _)) = rest.split_first() else {
        return Err(Code::BadForm);
    };
    match width.shape() {
        Shape::Leaf(Leaf::Num(0)) => Err(Code::BadForm),
        Shape::Leaf(Leaf::Num(width)) if width > MAX_WIDTH as u128 => Err(Code::TooWide),
        Shape::Leaf(Leaf::Num(width)) => Ok(Chan {
            kind,
            width: width as u32,
        }),
        _ => Err(Code::BadForm),
    }
}

// Whether it is the word `sync`, which most channels begin with.
#[inline(always)]
fn is_sync(head: &[u8]) -> bool
    ensures { result ≡ bytes_eq head.now (codes "sync") }
{
    matches!(head, b"sync")
}

// Whether a list is headed by the word `sync`. False tells nothing.
#[tactic(auto, using(crate::proofs::Heads::sync_by_word))]
#[inline(always)]
fn begins_with_sync(items: Forms<'_>) -> bool
    ensures { result ≡ true → listed_channel (forms_view items.entry) ≡ Ok (record { kind = ChanKind.Sync; width = 0 }) }
{
    match items.split_first() {
        Some((first, _)) => match first.word() {
            Some(head) => is_sync(head),
            None => false,
        },
        None => false,
    }
}

/// The channel of `sync ..`, `push W ..` or `pull W ..`.
#[inline(always)]
fn listed_channel(items: Forms<'_>) -> Result<Chan, Code>
    ensures { result ≡ listed_channel (forms_view items.entry) }
{
    if begins_with_sync(items) {
        return Ok(Chan {
            kind: ChanKind::Sync,
            width: 0,
        });
    }
    any_channel(items)
}

/// The same, however the list begins.
#[inline(never)]
fn any_channel(items: Forms<'_>) -> Result<Chan, Code>
    ensures { result ≡ listed_channel (forms_view items.entry) }
{
    let Some((head, rest)) = headed(items) else {
        return Err(Code::BadForm);
    };
    if is_sync(head) {
        Ok(Chan {
            kind: ChanKind::Sync,
            width: 0,
        })
    } else if head == b"push".as_slice() {
        wide_channel(ChanKind::Push, rest)
    } else if head == b"pull".as_slice() {
        wide_channel(ChanKind::Pull, rest)
    } else {
        Err(Code::BadForm)
    }
}

/// The channel that a member of `channels` names.
fn channel(member: Form<'_>) -> Result<Chan, Code>
    ensures { result ≡ channel (form_view member.entry) }
{
    match inside(member) {
        Some(items) => listed_channel(items),
        None => Err(Code::BadForm),
    }
}

/// The channels that the members of `channels` name.
pub(crate) fn channels(alloc: Global, members: Forms<'_>) -> Result<Vec<Chan>, Refusal>
    ensures ok { IfOk result (λ v. channels (forms_view members.entry) ≡ Ok v.items) }
    ensures err { IfErr result (HasFault (channels (forms_view members.entry))) }
{
    let mut channels = Vec::with_capacity(alloc, members.len())?;
    let mut rest = members;
    while let Some((member, after)) = rest.split_first() {
        match channel(member) {
            Ok(channel) => channels.push(channel)?,
            Err(code) => return Err(Refusal::At(code, member.span().from)),
        }
        rest = after;
    }
    Ok(channels)
}

/// A parameter by its shape, where symbols and lists are none.
fn param(alloc: Global, form: Form<'_>) -> Result<Option<Param>, AllocError>
    ensures { IfOk result (λ o. option_map param_record o ≡ param (form_view form.entry)) }
{
    Ok(match form.shape() {
        Shape::Leaf(Leaf::Num(n)) => Some(Param::Num(n)),
        Shape::Leaf(Leaf::Truth(flag)) => Some(Param::Flag(flag)),
        Shape::Leaf(Leaf::Text(text)) => {
            let text = text.bytes(alloc)?;
            if text.as_slice() == b"true".as_slice() {
                Some(Param::Flag(true))
            } else if text.as_slice() == b"false".as_slice() {
                Some(Param::Flag(false))
            } else {
                Some(Param::Word(text))
            }
        }
        _ => None,
    })
}

fn params(alloc: Global, list: Forms<'_>) -> Result<Vec<Param>, AllocError>
    ensures { IfOk result (λ v. map param_record v.items ≡ filter_map param (forms_view list.entry)) }
{
    let mut params = Vec::with_capacity(alloc, list.len())?;
    let mut rest = list;
    while let Some((form, after)) = rest.split_first() {
        if let Some(param) = param(alloc, form)? {
            params.push(param)?;
        }
        rest = after;
    }
    Ok(params)
}

/// The number of a channel.
#[tactic(auto, using(crate::proofs::Heads::number_is))]
#[inline(always)]
fn number(form: Form<'_>) -> Result<u32, Code>
    ensures { result ≡ number (form_view form.entry) }
{
    match form.short_number() {
        Some(n) => Ok(n),
        None => long_number(form),
    }
}

/// The same, whatever its length.
#[inline(never)]
fn long_number(form: Form<'_>) -> Result<u32, Code>
    ensures { result ≡ number (form_view form.entry) }
{
    match form.shape() {
        Shape::Leaf(Leaf::Num(n)) if n <= u32::MAX as u128 => Ok(n as u32),
        _ => Err(Code::BadForm),
    }
}

/// The channels' numbers in an entry of the component at the byte `at`.
fn numbers(alloc: Global, list: Forms<'_>, at: usize) -> Result<Vec<u32>, Refusal>
    ensures ok { IfOk result (λ v. numbers (forms_view list.entry) ≡ Ok v.items) }
    ensures err { IfErr result (HasFault (at_byte at (numbers (forms_view list.entry)))) }
{
    let mut numbers = Vec::with_capacity(alloc, list.len())?;
    let mut rest = list;
    while let Some((form, after)) = rest.split_first() {
        match number(form) {
            Ok(number) => numbers.push(number)?,
            Err(code) => return Err(Refusal::At(code, at)),
        }
        rest = after;
    }
    Ok(numbers)
}

/// An entry of the component at the byte `at`.
#[inline(always)]
fn slot(alloc: Global, form: Form<'_>, at: usize) -> Result<Slot, Refusal>
    ensures ok { IfOk result (λ s. slot (form_view form.entry) ≡ Ok (slot_record s)) }
    ensures err { IfErr result (HasFault (at_byte at (slot (form_view form.entry)))) }
{
    match inside(form) {
        Some(items) => Ok(Slot::Many(numbers(alloc, items, at)?)),
        None => match number(form) {
            Ok(number) => Ok(Slot::One(number)),
            Err(code) => Err(Refusal::At(code, at)),
        },
    }
}

fn slots(alloc: Global, list: Forms<'_>, at: usize) -> Result<Vec<Slot>, Refusal>
    ensures ok { IfOk result (λ v. slots (forms_view list.entry) ≡ Ok (map slot_record v.items)) }
    ensures err { IfErr result (HasFault (at_byte at (slots (forms_view list.entry)))) }
{
    let mut slots = Vec::with_capacity(alloc, list.len())?;
    let mut rest = list;
    while let Some((form, after)) = rest.split_first() {
        slots.push(slot(alloc, form, at)?)?;
        rest = after;
    }
    Ok(slots)
}

/// The entries of the component at the byte `at`, of which one alone stands in its place.
fn entries(alloc: Global, list: Forms<'_>, at: usize) -> Result<Entries, Refusal>
    ensures ok { IfOk result (λ v. slots (forms_view list.entry) ≡ Ok (map slot_record v.items)) }
    ensures err { IfErr result (HasFault (at_byte at (slots (forms_view list.entry)))) }
{
    if list.len() == 1 {
        if let Some((form, _)) = list.split_first() {
            return Ok(Entries::one(slot(alloc, form, at)?));
        }
    }
    Ok(Entries::row(slots(alloc, list, at)?))
}

/// The name that a text gives.
fn name(alloc: Global, text: Text<'_>) -> Result<Name, AllocError>
    ensures { IfOk result (λ name. name.items ≡ text_view text.entry) }
{
    match text.plain() {
        Some(bytes) => Name::of(alloc, bytes),
        None => {
            let bytes = text.bytes(alloc)?;
            Name::of(alloc, bytes.as_slice())
        }
    }
}

/// What stands in a component after its head.
#[derive(Clone, Copy)]
struct Fields<'d> {
    name: Text<'d>,
    params: Forms<'d>,
    entries: Forms<'d>,
}

/// Of `(PARAMETERS) (ENTRIES) ..`, after a name.
fn named_fields<'d>(name: Text<'d>, items: Forms<'d>) -> Option<Fields<'d>>
    ensures { option_map fields_view result ≡ named_fields (text_view name.entry) (forms_view items.entry) }
{
    let (params, rest) = items.split_first()?;
    let (entries, _) = rest.split_first()?;
    Some(Fields {
        name,
        params: inside(params)?,
        entries: inside(entries)?,
    })
}

/// Of `"NAME" (PARAMETERS) (ENTRIES) ..`.
fn fields_of(items: Forms<'_>) -> Option<Fields<'_>>
    ensures { option_map fields_view result ≡ fields_of (forms_view items.entry) }
{
    let (name, rest) = items.split_first()?;
    match name.shape() {
        Shape::Leaf(Leaf::Text(name)) => named_fields(name, rest),
        _ => None,
    }
}

/// The component with these fields, at the byte `at`.
fn component_of(alloc: Global, component: Fields<'_>, at: usize) -> Result<Component, Refusal>
    ensures ok { IfOk result (λ c. component_of (Some (fields_view component.entry)) ≡ Ok (component_record c)) }
    ensures err { IfErr result (HasFault (at_byte at (component_of (Some (fields_view component.entry))))) }
{
    let entries = entries(alloc, component.entries, at)?;
    let params = params(alloc, component.params)?;
    let name = name(alloc, component.name)?;
    Ok(Component {
        name,
        params,
        entries,
    })
}

// Whether it is the word `component`, which all of them begin with.
#[inline(always)]
fn is_component(head: &[u8]) -> bool
    ensures { result ≡ bytes_eq head.now (codes "component") }
{
    matches!(head, b"component")
}

/// The component of `component "NAME" (PARAMETERS) (ENTRIES) ..`, at the byte `at`.
fn listed_component(alloc: Global, items: Forms<'_>, at: usize) -> Result<Component, Refusal>
    ensures ok { IfOk result (λ c. listed_component (forms_view items.entry) ≡ Ok (component_record c)) }
    ensures err { IfErr result (HasFault (at_byte at (listed_component (forms_view items.entry)))) }
{
    let Some((head, rest)) = headed(items) else {
        return Err(Refusal::At(Code::Undeclared, at));
    };
    if !is_component(head) {
        return Err(Refusal::At(Code::Undeclared, at));
    }
    match fields_of(rest) {
        Some(component) => component_of(alloc, component, at),
        None => Err(Refusal::At(Code::BadForm, at)),
    }
}

/// The component that a member of `components` names.
fn component(alloc: Global, member: Form<'_>) -> Result<Component, Refusal>
    ensures ok { IfOk result (λ c. component (form_view member.entry) ≡ Ok (component_record c)) }
    ensures err { IfErr result (HasFault (at_byte (place_of (form_view member.entry)) (component (form_view member.entry)))) }
{
    let at = member.span().from;
    match inside(member) {
        Some(items) => listed_component(alloc, items, at),
        None => Err(Refusal::At(Code::BadForm, at)),
    }
}

// A list with room for so many components. A long one lies in the heap, with room for half as many again: so the nodes of a net,
// which are larger, can lie where it was, and what was read before it.
fn room_for(alloc: Global, count: usize) -> Result<Vec<Component>, AllocError>
    ensures { IfOk result (λ v. v.items ≡ []) }
{
    let wide = count.saturating_add(count / 2);
    match gap(alloc, wide.saturating_mul(size_of::<Component>())) {
        Some(_gap) => Vec::with_capacity(alloc, wide),
        None => Vec::with_capacity(alloc, count),
    }
}

/// The components that the members of `components` name.
pub(crate) fn components(alloc: Global, members: Forms<'_>) -> Result<Vec<Component>, Refusal>
    ensures ok { IfOk result (λ v. components (forms_view members.entry) ≡ Ok (map component_record v.items)) }
    ensures err { IfErr result (HasFault (components (forms_view members.entry))) }
{
    let mut components = room_for(alloc, members.len())?;
    let mut rest = members;
    while let Some((member, after)) = rest.split_first() {
        components.push(component(alloc, member)?)?;
        rest = after;
    }
    Ok(components)
}
