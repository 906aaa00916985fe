//! What the row of a kind says beside its name and its ports, as far as a word or a number says it.

/// What the lengths of a kind's arrays have to be, beside within the limits of all arrays.
#[derive(Clone, Copy)]
pub enum LengthRule {
    /// Both arrays have one length.
    Equal,
    /// The first array has as many members as the kind's specification has sets.
    Sets,
}

/// A parameter that a kind looks at.
#[derive(Clone, Copy)]
pub struct ParamRow {
    pub place: ParamPlace,
    pub meaning: ParamMeaning,
    /// Whether it may be left out.
    pub is_optional: bool,
}

/// Where a parameter is: its place among those of its shape, from 0.
#[derive(Clone, Copy)]
pub enum ParamPlace {
    Number(usize),
    Flag(usize),
    Text(usize),
    LastText,
}

/// What a parameter is.
#[derive(Clone, Copy)]
pub enum ParamMeaning {
    /// A text with one or more sets of numbers.
    Specification,
    /// The name of an operation on one value.
    Unary,
    /// The name of an operation on two.
    Binary,
    /// Whether the values have a sign that come in at the port of this place in the row, from 0.
    Sign(usize),
    /// Whether the constant operand has one.
    ConstantSign,
    /// The width of the constant operand, from 1 to 128.
    ConstantWidth,
    /// The value of a constant, or of the constant operand.
    Constant,
    /// The lowest bit that is taken.
    Low,
    /// A text that has to be empty.
    Empty,
}

/// What of its parameters tells one component of a kind from another, beside the name of a variable.
#[derive(Clone, Copy)]
pub enum DetailRule {
    Nothing,
    /// Its first text.
    Text,
    /// Its first text, and the constant operand.
    Applied,
    /// The value of the constant.
    Constant,
    /// The lowest bit.
    Low,
}

/// How the single entries of a component stand for its single ports.
#[derive(Clone, Copy)]
pub enum EntryOrder {
    /// In the order of the ports.
    AsPorts,
    /// The entry on a pull channel is the second of three, and the others keep their order.
    GuardSecond,
    /// Of the first two entries the one on a pull channel stands in front.
    GuardInFront,
}

/// How a component stands to requests at several of its passive ports.
#[derive(Clone, Copy)]
pub enum Callers {
    /// It doesn't matter which of them is taken first.
    Apart,
    /// A write at its first port comes before a read at another, or after it.
    Written,
    /// It serves those of its first array one at a time, and their requests may not meet.
    Meet,
    /// It waits for several behind its first port, of which one is enough.
    OneIsEnough,
    /// It serves one of two at a time, whichever comes first.
    Arbitrated,
    /// It is activated beside its guard, and inputs of the guard come in between.
    Guarded,
}

/// From which port on a component's ports are those of which it chooses one.
#[derive(Clone, Copy)]
pub enum Branches {
    From(u32),
    /// So many ports behind the members of its first array.
    BehindFirstArray(u32),
}
