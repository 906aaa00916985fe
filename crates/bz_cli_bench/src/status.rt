//! The status of all cases.

ghost use Rattle.std.specs.Prelude.{◌≡◌, ◌⊎◌, false, true};
ghost use Rattle.bz_cli_bench.specs.Cases.{AllPassed, IsStatus, SomeFailed, graver, gravest, gravity};

use crate::case::Case;
use crate::ended::REFUSED;

/// The status of a call: that of its cases, where what they exercised was written, if that is asked for.
#[tactic(auto, using(crate::proofs::Statuses::refused_says))]
pub(crate) fn status_behind(cases: &[Case], covers: bool, is_written: bool) -> u8
    requires { covers ≡ false → is_written ≡ true }
    ensures { IsStatus cases.now covers result }
{
    if !is_written {
        return REFUSED;
    }
    status_of(cases)
}

// Of the statuses of cases the gravest.
fn status_of(cases: &[Case]) -> u8
    ensures passed { result ≡ 0 → AllPassed cases.now }
    ensures failed { result ≡ 1 → SomeFailed cases.now }
    ensures gravest { result ≡ gravest cases.now }
{
    let mut status = 0;
    for case in cases {
        status = graver(status, case.status());
    }
    status
}

// Of two statuses the graver one.
fn graver(left: u8, right: u8) -> u8
    ensures one { (result ≡ left) ⊎ (result ≡ right) }
    ensures none { result ≡ 0 → (left ≡ 0) × (right ≡ 0) }
    ensures graver { result ≡ graver left right }
{
    if gravity(left) < gravity(right) {
        right
    } else {
        left
    }
}

// How grave a status is: the least is that nothing is wrong; then that something came to no end, that something failed, and that
// something was refused.
fn gravity(status: u8) -> u8
    ensures { result ≡ gravity status }
{
    match status {
        0 => 0,
        4 => 1,
        1 => 2,
        _ => 3,
    }
}
