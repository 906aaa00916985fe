//! The numbers of 64 ports, from 0 to 3, in two words.
ghost use Rattle.std.specs.Prelude.{◌≡◌, ◌==◌, ◌&&◌, ◌+◌, ◌-◌, ◌*◌, ◌/◌, ◌%◌, ◌<◌, ◌≤◌, ℕ, nat_le, not, if◌then◌else◌};
ghost use Rattle.std.specs.Int.{bit_at, from_bool};
ghost use Rattle.bz_bits.specs.PortWords.{number_in, between, goes};

use crate::row::above;

/// Bit i of each stands for the port in place i: whether a move is due there, and whether the port is open.
#[derive(Clone, Copy)]
pub struct PortWord {
    pub due: u64,
    pub opened: u64,
}

/// No port open, and no move due.
pub(crate) const NO_PORTS: PortWord = PortWord { due: 0, opened: 0 };

impl PortWord {
    /// The number of the port in a place.
    pub(crate) fn number(self, place: usize) -> u8
        requires { place < 64 }
        ensures { result ≡ number_in self place }
    {
        ((self.due >> place) & 1) as u8 + 2 * ((self.opened >> place) & 1) as u8
    }

    /// Whether the number of the port in a place is 2 or 3.
    pub(crate) fn is_high(self, place: usize) -> bool
        requires { place < 64 }
        ensures { result ≡ nat_le 2 (number_in self place) }
    {
        has_bit(self.opened, place)
    }

    /// The same but for the ports of `mask`, which all get this number.
    pub(crate) fn filled(self, mask: u64, number: u8) -> PortWord
        requires { number < 4 }
        ensures { (i : ℕ) → i < 64 → number_in result i ≡ (if bit_at mask i == 1 then number else number_in self i) }
    {
        PortWord {
            due: with(self.due, mask, number % 2 == 1),
            opened: with(self.opened, mask, number / 2 == 1),
        }
    }

    /// The same but for the port in a place, whose number changes by 2.
    #[inline]
    pub(crate) fn turned(self, place: usize) -> PortWord
        requires { place < 64 }
        ensures turned { (i : ℕ) → i < 64 → number_in result i ≡ (if between place (place + 1) i then (number_in self i + 2) % 4 else number_in self i) }
        ensures due { result.due ≡ self.due }
    {
        PortWord {
            due: self.due,
            opened: flip(self.opened, place),
        }
    }

    /// The same but for the port in a place, whose number is taken from 3.
    #[inline]
    pub(crate) fn flipped(self, place: usize) -> PortWord
        requires { place < 64 }
        ensures { (i : ℕ) → i < 64 → number_in result i ≡ (if between place (place + 1) i then 3 - number_in self i else number_in self i) }
    {
        PortWord {
            due: flip(self.due, place),
            opened: flip(self.opened, place),
        }
    }

    /// The same but for the port in a place, whose even number becomes odd.
    #[inline]
    pub(crate) fn raised(self, place: usize) -> PortWord
        requires place { place < 64 }
        requires even { number_in self place % 2 ≡ 0 }
        ensures { (i : ℕ) → i < 64 → number_in result i ≡ (if between place (place + 1) i then number_in self i + 1 else number_in self i) }
    {
        PortWord {
            due: flip(self.due, place),
            opened: self.opened,
        }
    }

    /// The ports at which a move is due that waits for nothing, or for what is here. `active` has a bit for each port that isn't
    /// passive, `here` one for each.
    pub fn ready(self, active: u64, here: u64) -> u64
        ensures { (i : ℕ) → i < 64 → (bit_at result i == 1) ≡ goes (bit_at self.due i == 1) (bit_at self.opened i == 1) (not (bit_at active i == 1)) (bit_at here i == 1) }
    {
        ready_ports(self.due, self.opened, active, here)
    }
}

fn ready_ports(due: u64, opened: u64, active: u64, here: u64) -> u64
    ensures { (i : ℕ) → i < 64 → (bit_at result i == 1) ≡ goes (bit_at due i == 1) (bit_at opened i == 1) (not (bit_at active i == 1)) (bit_at here i == 1) }
{
    due & (here | (active ^ opened))
}

fn has_bit(word: u64, place: usize) -> bool
    requires { place < 64 }
    ensures { result ≡ (bit_at word place == 1) }
{
    (word >> place) & 1 == 1
}

// Turns the bit in a place.
#[inline]
fn flip(word: u64, place: usize) -> u64
    requires { place < 64 }
    ensures { (i : ℕ) → i < 64 → bit_at result i ≡ (if between place (place + 1) i then 1 - bit_at word i else bit_at word i) }
{
    word ^ one_place(place)
}

/// Gives the places of `mask` one bit.
pub(crate) fn with(word: u64, mask: u64, bit: bool) -> u64
    ensures { (i : ℕ) → i < 64 → bit_at result i ≡ (if bit_at mask i == 1 then from_bool bit else bit_at word i) }
{
    if bit { word | mask } else { word & !mask }
}

/// Of the 64 places of a word, one.
pub(crate) fn one_place(place: usize) -> u64
    requires { place < 64 }
    ensures { (i : ℕ) → i < 64 → (bit_at result i == 1) ≡ between place (place + 1) i }
{
    1 << place
}

/// Of the 64 places of word `at`, those from `from` to before `to`.
pub fn places(at: usize, from: usize, to: usize) -> u64
    requires { 64 * at < to }
    ensures { (i : ℕ) → i < 64 → (bit_at result i == 1) ≡ between from to (64 * at + i) }
{
    let start = 64 * at;
    from_place(from.saturating_sub(start)) & !from_place(to - start)
}

// The places of a word from one on.
fn from_place(place: usize) -> u64
    ensures { (i : ℕ) → i < 64 → (bit_at result i == 1) ≡ nat_le place i }
{
    if place < 64 {
        above(u64::MAX, place)
    } else {
        0
    }
}
