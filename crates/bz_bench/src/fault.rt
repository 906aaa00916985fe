//! What is wrong with a bench.

use std::alloc::{AllocError, AllocFailed};

/// A place in a text: its line and its column, each from 1. The column counts bytes.
#[derive(Clone, Copy)]
pub struct Spot {
    pub line: usize,
    pub column: usize,
}

/// What is wrong at a place.
#[derive(Clone, Copy)]
pub enum Cause {
    /// A word is no item.
    BadItem,
    /// An item stands behind one that ends its port's items.
    AfterLast,
    /// A file of items can't be read.
    NoFile,
    /// A line that begins with `:` is none of those that there are.
    BadLine,
    /// A port has two lines between one `:then` and the next.
    PortTwice,
    /// A port's name is no name form.
    BadName,
    /// The net has no such port.
    NoPort,
    /// An item doesn't belong at a port of this kind and sense.
    WrongItem,
    /// A value has more bits than the channel.
    TooLarge,
    /// There are more items than a trace may have entries.
    TooMany,
    /// The text is not UTF-8.
    NotText,
    /// No netlist is named.
    NoNetlist,
}

impl Cause {
    /// Its code and its name.
    pub fn code(self) -> &'static str {
        match self {
            Cause::BadItem => "L1 BadItem",
            Cause::AfterLast => "L2 AfterLast",
            Cause::NoFile => "L3 NoFile",
            Cause::BadLine => "L4 BadLine",
            Cause::PortTwice => "L5 PortTwice",
            Cause::BadName => "L6 BadName",
            Cause::NoPort => "L7 NoPort",
            Cause::WrongItem => "L8 WrongItem",
            Cause::TooLarge => "L9 TooLarge",
            Cause::TooMany => "L10 TooMany",
            Cause::NotText => "L11 NotText",
            Cause::NoNetlist => "L12 NoNetlist",
        }
    }

    /// What belongs there.
    pub fn expected(self) -> &'static str {
        match self {
            Cause::BadItem => "a value, `?`, `.`, each also with *N or *, or `>` or @FILE",
            Cause::AfterLast => "no item behind `>` or one with * at a port",
            Cause::NoFile => "a file of items",
            Cause::BadLine => ":netlist FILE, :part NAME, :then, :spins, or a port",
            Cause::PortTwice => "a port once, or once more behind :then",
            Cause::BadName => "a port in name form",
            Cause::NoPort => "a port of the net",
            Cause::WrongItem => {
                "values at a push or a pull, `?` where they are due, `.` at a sync, `>` where it is passive"
            }
            Cause::TooLarge => "a value of the channel's width",
            Cause::TooMany => "at most 16777216 items",
            Cause::NotText => "a text in UTF-8",
            Cause::NoNetlist => ":netlist FILE, or -n",
        }
    }
}

/// Why a text is no bench.
#[derive(Clone, Copy)]
pub enum BenchFault {
    At(Spot, Cause),
    Memory,
}

impl From<AllocError> for BenchFault {
    fn from(_e: AllocError) -> BenchFault {
        BenchFault::Memory
    }
}

impl<T: Drop> From<AllocFailed<T>> for BenchFault {
    fn from(_e: AllocFailed<T>) -> BenchFault {
        BenchFault::Memory
    }
}
