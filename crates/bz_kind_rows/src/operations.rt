//! The operations by the names that netlists give them.

ghost use Rattle.std.specs.Prelude.{◌≡◌, map};
ghost use Rattle.bz_kind_rows.specs.Naming.{operation_names};

use bz_model::{BinaryOp, ParamMeaning, UnaryOp};

// The operations on one value, each as `$each!` makes it of a name and an operation.
macro_rules! unary {
    ($each:ident) => {
        [
            $each!("Negate", UnaryOp::Negate),
            $each!("Invert", UnaryOp::Invert),
        ]
    };
}

// The same of those on two.
macro_rules! binary {
    ($each:ident) => {
        [
            $each!("Add", BinaryOp::Add),
            $each!("Subtract", BinaryOp::Subtract),
            $each!("ReverseSubtract", BinaryOp::ReverseSubtract),
            $each!("Equals", BinaryOp::Equals),
            $each!("NotEquals", BinaryOp::NotEquals),
            $each!("LessThan", BinaryOp::LessThan),
            $each!("GreaterThan", BinaryOp::GreaterThan),
            $each!("LessOrEquals", BinaryOp::LessOrEquals),
            $each!("GreaterOrEquals", BinaryOp::GreaterOrEquals),
            $each!("And", BinaryOp::And),
            $each!("Or", BinaryOp::Or),
            $each!("Xor", BinaryOp::Xor),
        ]
    };
}

macro_rules! named {
    ($name:literal, $op:expr) => {
        ($name, $op)
    };
}

macro_rules! name {
    ($name:literal, $op:expr) => {
        $name
    };
}

pub(crate) static UNARY_OPS: [(&str, UnaryOp); 2] = unary!(named);

pub(crate) static BINARY_OPS: [(&str, BinaryOp); 12] = binary!(named);

static UNARY_NAMES: [&str; 2] = unary!(name);

static BINARY_NAMES: [&str; 12] = binary!(name);

/// The names of the operations that a parameter may be, none where it is to be something else.
pub fn operation_names(meaning: ParamMeaning) -> &'static [&'static str]
    ensures { map (λ name. name.now) result.now ≡ operation_names meaning }
{
    match meaning {
        ParamMeaning::Unary => &UNARY_NAMES,
        ParamMeaning::Binary => &BINARY_NAMES,
        _ => &[],
    }
}
