//! The loops that `bench/run` measures: each argument names one, and its sum is printed.
#![tactic(auto)]

ghost use Rattle.std.specs.Prelude.{◌<◌, ◌+◌, ◌^◌};

use bz_arena::{Arena, Id};
use bz_ready::ReadySet;
use std::alloc::{AllocError, Global};
use std::{env, io};

const LIMIT: u32 = 1_000_000;

const SEARCHES: u32 = 10_000_000;

const NODES: u64 = 10_000_000;

fn main(rt: HostRuntime) -> io::Result<()> {
    for word in env::args(&rt)?.skip(1) {
        let sum = match word.as_str() {
            "one" => searched(&filled_set(rt.alloc(), LIMIT, LIMIT)?),
            "thousand" => searched(&filled_set(rt.alloc(), LIMIT, 1000)?),
            "all" => searched(&filled_set(rt.alloc(), LIMIT, 1)?),
            "arena" => pushed_and_read(rt.alloc())?,
            _ => 0,
        };
        println!(rt; "{word} {sum}")?;
    }
    Ok(())
}

// The set of the multiples of `step` up to `limit`.
fn filled_set(alloc: Global, limit: u32, step: u32) -> Result<ReadySet, AllocError>
    requires small { limit + 1 < 2 ^ 32 }
    requires step { 0 < step }
{
    let mut set = ReadySet::new(alloc, limit)?;
    for number in 1..limit + 1 {
        if number % step == 0 {
            set.insert(number);
        }
    }
    Ok(set)
}

// The sum of the members found from numbers in no order.
fn searched(set: &ReadySet) -> u64 {
    let mut number = 1u32;
    let mut sum = 0u64;
    for _ in 0..SEARCHES {
        number = number.wrapping_mul(1664525).wrapping_add(1013904223);
        if let Some(member) = set.next_from(number % LIMIT) {
            sum = sum.wrapping_add(u64::from(member));
        }
    }
    sum
}

fn pushed_and_read(alloc: Global) -> Result<u64, AllocError> {
    let mut arena = Arena::new(alloc);
    for node in 0..NODES {
        if arena.push(node).is_err() {
            return Err(AllocError);
        }
    }
    let mut sum = 0u64;
    for index in 0..arena.len() {
        sum = sum.wrapping_add(*arena.get(Id::at(index)));
    }
    Ok(sum)
}
