//! Kinds by the names and parameters that netlists give them.

ghost use Rattle.std.specs.Prelude.{◌≡◌, ◌⊎◌, ◌==◌, not, length, map, bytes_eq, IfOk, IfErr, Ok, Err};
ghost use Rattle.bz_model.specs.declared.kind.Kind.TheVariants.{Adapt};
ghost use Rattle.bz_model.specs.declared.error.KindError.TheVariants.{Memory};
ghost use Rattle.std.specs.Option.{option_copied};
ghost use Rattle.bz_kind_rows.specs.Naming.{named, meant, kind_by, kind_with, text, number, flag, given_flag, case_by, case_fetch_by, variable_by, false_variable_by, reads_whole, last_text, constant_by, unary_by, binary_by, const_by, slice_by, given, unary_named, binary_named};

use crate::likely::likely;
use crate::operations::{BINARY_OPS, UNARY_OPS};
use crate::rows::{kind_rows, row_named};
use crate::specification::specification;
use bz_model::{BinaryOp, Kind, KindError, KindName, MAX_WIDTH, Param, UnaryOp};
use std::alloc::{AllocError, Global};

/// The kind of this name with these parameters.
///
/// A name that no kind has is `UnknownComponent`; parameters that the kind cannot have are `BadParameter`.
pub fn kind_of(alloc: Global, name: &[u8], params: &[Param]) -> Result<Kind, KindError>
    ensures ok { IfOk result (λ kind. kind_with name.now params.now ≡ Ok kind) }
    ensures err { IfErr result (λ e. (e ≡ Memory) ⊎ (kind_with name.now params.now ≡ Err e)) }
{
    let Some(name) = kind_named(name) else {
        return Err(KindError::UnknownComponent);
    };
    let Some(kind) = kind_by(alloc, name, params)? else {
        return Err(KindError::BadParameter);
    };
    Ok(kind)
}

/// The kind that has this name in netlists.
pub fn kind_named(name: &[u8]) -> Option<KindName>
    ensures { result ≡ named name.now }
{
    let likely = likely(name);
    if is(name, row_named(likely).name.as_bytes()) {
        return Some(likely);
    }
    for row in kind_rows() {
        if is(name, row.name.as_bytes()) {
            return Some(row.kind);
        }
    }
    None
}

// What stands beside a name in a table.
fn meant<T: Copy>(table: &[(&str, T)], name: &[u8]) -> Option<T>
    ensures { result ≡ meant (map (λ row. (row.0.now, row.1)) table.now) name.now }
{
    for row in table {
        if is(name, row.0.as_bytes()) {
            return Some(row.1);
        }
    }
    None
}

// Whether a name is this text.
#[inline(always)]
fn is(name: &[u8], text: &[u8]) -> bool
    ensures { result ≡ bytes_eq name.now text.now }
{
    name.len() == text.len() && are_alike(name, text)
}

// Whether two texts of one length have the same bytes: eight at once, which the compiler compares as one, and then the rest.
fn are_alike(name: &[u8], text: &[u8]) -> bool
    requires { length name.now ≡ length text.now }
    ensures { result ≡ bytes_eq name.now text.now }
{
    let [one, two, three, four, five, six, seven, eight, rest @ ..] = name else {
        return are_alike_near(name, text);
    };
    let [
        first,
        second,
        third,
        fourth,
        fifth,
        sixth,
        seventh,
        eighth,
        others @ ..,
    ] = text
    else {
        return false;
    };
    let front = differ(*one, *first)
        | differ(*two, *second)
        | differ(*three, *third)
        | differ(*four, *fourth);
    let back = differ(*five, *fifth)
        | differ(*six, *sixth)
        | differ(*seven, *seventh)
        | differ(*eight, *eighth);
    if front | back {
        return false;
    }
    are_alike(rest, others)
}

// The same of few bytes: a loop takes half of what a call of `==` does.
#[inline(always)]
fn are_alike_near(name: &[u8], text: &[u8]) -> bool
    requires { length name.now ≡ length text.now }
    ensures { result ≡ bytes_eq name.now text.now }
{
    for (place, byte) in name.iter().enumerate() {
        if *byte != text[place] {
            return false;
        }
    }
    true
}

#[inline(always)]
fn differ(a: u8, b: u8) -> bool
    ensures { result ≡ not (a == b) }
{
    a != b
}

// The kind of this name, unless it cannot have these parameters.
fn kind_by(alloc: Global, name: KindName, params: &[Param]) -> Result<Option<Kind>, AllocError>
    ensures { IfOk result (λ kind. kind ≡ kind_by name params.now) }
{
    match name {
        KindName::Loop => Ok(Some(Kind::Loop)),
        KindName::Sequence => Ok(Some(Kind::Sequence)),
        KindName::SequenceOptimised => Ok(Some(Kind::SequenceOptimised)),
        KindName::Concur => Ok(Some(Kind::Concur)),
        KindName::Fork => Ok(Some(Kind::Fork)),
        KindName::WireFork => Ok(Some(Kind::WireFork)),
        KindName::ForkPush => Ok(Some(Kind::ForkPush)),
        KindName::While => Ok(Some(Kind::While)),
        KindName::Case => case(alloc, params),
        KindName::CaseFetch => case_fetch(alloc, params),
        KindName::Fetch => Ok(Some(Kind::Fetch)),
        KindName::Variable => Ok(variable(params)),
        KindName::Constant => Ok(constant(params)),
        KindName::UnaryFunc => Ok(unary_func(params)),
        KindName::BinaryFunc => Ok(binary_func(params)),
        KindName::BinaryFuncConstR => Ok(binary_func_const(params)),
        KindName::Slice => Ok(slice(params)),
        KindName::Combine => Ok(Some(Kind::Combine)),
        KindName::CombineEqual => Ok(Some(Kind::CombineEqual)),
        KindName::Adapt => Ok(Some(adapt(params))),
        KindName::Split => Ok(Some(Kind::Split)),
        KindName::Halt => Ok(Some(Kind::Halt)),
        KindName::HaltPush => Ok(Some(Kind::HaltPush)),
        KindName::Continue => Ok(Some(Kind::Continue)),
        KindName::ContinuePush => Ok(Some(Kind::ContinuePush)),
        KindName::Call => Ok(Some(Kind::Call)),
        KindName::CallMux => Ok(Some(Kind::CallMux)),
        KindName::CallDemux => Ok(Some(Kind::CallDemux)),
        KindName::Passivator => Ok(Some(Kind::Passivator)),
        KindName::PassivatorPush => Ok(Some(Kind::PassivatorPush)),
        KindName::Synch => Ok(Some(Kind::Synch)),
        KindName::SynchPull => Ok(Some(Kind::SynchPull)),
        KindName::DecisionWait => Ok(Some(Kind::DecisionWait)),
        KindName::Arbiter => Ok(Some(Kind::Arbiter)),
        KindName::FalseVariable => Ok(false_variable(params)),
        KindName::Bar => Ok(Some(Kind::Bar)),
    }
}

fn adapt(params: &[Param]) -> Kind
    ensures { result ≡ Adapt (flag params.now 1) }
{
    Kind::Adapt {
        signed: flag(params, 1),
    }
}

fn case(alloc: Global, params: &[Param]) -> Result<Option<Kind>, AllocError>
    ensures { IfOk result (λ kind. kind ≡ case_by params.now) }
{
    let Some(text) = text(params, 0) else {
        return Ok(None);
    };
    let Some(spans) = specification(alloc, text)? else {
        return Ok(None);
    };
    Ok(Some(Kind::Case(spans)))
}

fn case_fetch(alloc: Global, params: &[Param]) -> Result<Option<Kind>, AllocError>
    ensures { IfOk result (λ kind. kind ≡ case_fetch_by params.now) }
{
    let Some(text) = text(params, 0) else {
        return Ok(None);
    };
    let Some(spans) = specification(alloc, text)? else {
        return Ok(None);
    };
    Ok(Some(Kind::CaseFetch(spans)))
}

fn variable(params: &[Param]) -> Option<Kind>
    ensures { result ≡ variable_by params.now }
{
    if reads_whole(text(params, 1)) {
        Some(Kind::Variable)
    } else {
        None
    }
}

fn false_variable(params: &[Param]) -> Option<Kind>
    ensures { result ≡ false_variable_by params.now }
{
    if reads_whole(last_text(params)) {
        Some(Kind::FalseVariable)
    } else {
        None
    }
}

// Whether a read specification, if there is one, is empty: each read is of the whole value.
fn reads_whole(specification: Option<&[u8]>) -> bool
    ensures { result ≡ reads_whole (option_copied specification.entry) }
{
    match specification {
        Some(text) => text.is_empty(),
        None => true,
    }
}

fn constant(params: &[Param]) -> Option<Kind>
    ensures { result ≡ constant_by params.now }
{
    match number(params, 1) {
        Some(value) => Some(Kind::Constant(value)),
        None => None,
    }
}

fn unary_func(params: &[Param]) -> Option<Kind>
    ensures { result ≡ unary_by params.now }
{
    let Some(text) = text(params, 0) else {
        return None;
    };
    let Some(op) = unary_named(text) else {
        return None;
    };
    Some(Kind::UnaryFunc {
        op,
        signed: flag(params, 0),
    })
}

fn binary_func(params: &[Param]) -> Option<Kind>
    ensures { result ≡ binary_by params.now }
{
    let Some(text) = text(params, 0) else {
        return None;
    };
    let Some(op) = binary_named(text) else {
        return None;
    };
    Some(Kind::BinaryFunc {
        op,
        left_signed: flag(params, 1),
        right_signed: flag(params, 2),
    })
}

fn binary_func_const(params: &[Param]) -> Option<Kind>
    ensures { result ≡ const_by params.now }
{
    let Some(text) = text(params, 0) else {
        return None;
    };
    let Some(op) = binary_named(text) else {
        return None;
    };
    let Some((right_width, right)) = given(number(params, 2), number(params, 3)) else {
        return None;
    };
    Some(Kind::BinaryFuncConstR {
        op,
        left_signed: flag(params, 1),
        right_signed: flag(params, 2),
        right_width,
        right,
    })
}

fn slice(params: &[Param]) -> Option<Kind>
    ensures { result ≡ slice_by params.now }
{
    match number(params, 2) {
        Some(low) => Some(Kind::Slice(low)),
        None => None,
    }
}

// The width and the value of a second operand.
fn given(width: Option<u128>, value: Option<u128>) -> Option<(u32, u128)>
    ensures { result ≡ given width value }
{
    let Some(width) = width else {
        return None;
    };
    let Some(value) = value else {
        return None;
    };
    if width < 1 || width > MAX_WIDTH as u128 {
        return None;
    }
    Some((width as u32, value))
}

fn unary_named(text: &[u8]) -> Option<UnaryOp>
    ensures { result ≡ unary_named text.now }
{
    meant(&UNARY_OPS, text)
}

fn binary_named(text: &[u8]) -> Option<BinaryOp>
    ensures { result ≡ binary_named text.now }
{
    meant(&BINARY_OPS, text)
}

// The text at a place among the parameters that are texts.
fn text(params: &[Param], place: usize) -> Option<&[u8]>
    ensures { option_copied result ≡ text params.now place }
{
    let mut before = 0;
    for param in params {
        if let Param::Word(text) = param {
            if before == place {
                return Some(text.as_slice());
            }
            before += 1;
        }
    }
    None
}

// The last of the parameters that are texts.
fn last_text(params: &[Param]) -> Option<&[u8]>
    ensures { option_copied result ≡ last_text params.now }
{
    let mut last = None;
    for param in params {
        if let Param::Word(text) = param {
            last = Some(text.as_slice());
        }
    }
    last
}

// The number at a place among the parameters that are numbers.
fn number(params: &[Param], place: usize) -> Option<u128>
    ensures { result ≡ number params.now place }
{
    let mut before = 0;
    for param in params {
        if let Param::Num(number) = param {
            if before == place {
                return Some(*number);
            }
            before += 1;
        }
    }
    None
}

// The truth value at a place among the parameters that are such values, false where there is none.
fn flag(params: &[Param], place: usize) -> bool
    ensures { result ≡ flag params.now place }
{
    match given_flag(params, place) {
        Some(flag) => flag,
        None => false,
    }
}

fn given_flag(params: &[Param], place: usize) -> Option<bool>
    ensures { result ≡ given_flag params.now place }
{
    let mut before = 0;
    for param in params {
        if let Param::Flag(flag) = param {
            if before == place {
                return Some(*flag);
            }
            before += 1;
        }
    }
    None
}
