//! What decimal digits spell.

ghost use Rattle.std.specs.Prelude.{◌<◌, ◌^◌};
ghost use Rattle.std.specs.Option.{SomeIff};
ghost use Rattle.std.specs.Str.Parse.{IsNumeral, digits_value};
ghost use Rattle.bz_model.specs.Limits.{max_width};

use crate::channel::Value;

/// The value that decimal digits spell.
pub fn value_of(digits: &str) -> Option<Value>
    ensures { SomeIff result (IsNumeral 10 digits.now × (digits_value 10 digits.now < 2 ^ max_width))
        (digits_value 10 digits.now) }
{
    if digits.starts_with('+') {
        return None;
    }
    digits.parse().ok()
}

/// The number below 2^32 that decimal digits spell.
pub fn count_of(digits: &str) -> Option<u32>
    ensures { SomeIff result (IsNumeral 10 digits.now × (digits_value 10 digits.now < 2 ^ 32))
        (digits_value 10 digits.now) }
{
    if digits.starts_with('+') {
        return None;
    }
    digits.parse().ok()
}

/// The number below 2^64 that decimal digits spell.
pub fn wide_count_of(digits: &str) -> Option<u64>
    ensures { SomeIff result (IsNumeral 10 digits.now × (digits_value 10 digits.now < 2 ^ 64))
        (digits_value 10 digits.now) }
{
    if digits.starts_with('+') {
        return None;
    }
    digits.parse().ok()
}
