//! The digits of a number and a line feed, where a word of 8 bytes has room for them.

ghost use Rattle.std.specs.Prelude.{◌≡◌, ◌<◌, ◌≤◌, ◌+◌, ◌++◌, codes, decimal, get_or, take};

use crate::page::digits;

/// The last byte says how many of them are digits.
#[derive(Clone, Copy)]
pub(crate) struct Numeral {
    pub(crate) bytes: [u8; 8],
    ghost fits: { get_or bytes 7 0 ≤ 6 },
}

/// The digits of a number.
pub(crate) fn numeral_of(n: u32) -> Numeral
    requires { n < 1000000 }
    ensures { take (get_or result.bytes 7 0 + 1) result.bytes ≡ decimal n ++ codes "\n" }
{
    let len = digits(n);
    let mut bytes = [b'\n'; 8];
    let _start = itoa::write_digits(u64::from(n), &mut bytes, len);
    bytes[7] = len as u8;
    Numeral { bytes }
}
