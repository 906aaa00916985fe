//! Picking by chance.
//!
//! A draw takes 64 bits modulo the number of choices. That some are likelier by one in 2^44 or less is not made up for.

ghost use Rattle.std.specs.Prelude.{◌≡◌, ◌<◌, ◌%◌};
ghost use Rattle.bz_explore_net.specs.Picking.{after, begun, drawn};

use rand_core::utils::NextWord;
use rand_pcg::Pcg32;
use std::marker::Model;

/// The stream of all pickers: they differ by their seeds.
const STREAM: u64 = 54;

/// What is picked by: the seed, and how far the picking is.
#[derive(Clone, Copy, PartialEq, Eq)]
pub struct Picker {
    seed: u64,
    state: u64,
}

impl Model for Picker {
    ghost use Rattle.bz_explore_net.specs.Picking.{Chance};

    ghost Value = { Chance };

    ghost view = { λ p. record { seed = p.seed; state = p.state } };

    ghost inverse = { λ c. record { seed = c.seed; state = c.state } };
}

impl Picker {
    /// Begins the picking of a seed.
    pub fn new(seed: u64) -> Picker
        ensures seed { result.seed ≡ seed }
        ensures state { result.state ≡ begun seed }
    {
        Picker {
            seed,
            state: Pcg32::new(seed, STREAM).state(),
        }
    }

    /// The seed of the picking.
    pub fn seed(self) -> u64
        ensures { result ≡ self.seed }
    {
        self.seed
    }

    /// One of so many numbers from 0 on.
    pub fn pick(&mut self, count: u32) -> u32
        requires { 0 < count }
        ensures picked { result ≡ drawn self.old.state % count }
        ensures within { result < count }
        ensures state { self.new.state ≡ after self.old.state }
        ensures seed { self.new.seed ≡ self.old.seed }
    {
        let mut words = Pcg32::from_state(self.state, STREAM);
        let high = words.next_word();
        let low = words.next_word();
        self.state = words.state();
        let word = u64::from(high) * 4_294_967_296 + u64::from(low);
        (word % u64::from(count)) as u32
    }
}
