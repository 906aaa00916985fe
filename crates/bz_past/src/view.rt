use crate::turns::Turns;
use bz_model::Who;
use bz_net::Net;

/// A net at a moment, whether all was stopped then, and how sessions had come to stand. No value of it is made.
pub struct Moment {
    pub net: Net,
    pub stopped: bool,
    pub turns: Turns,
}

/// What lies there now, to how many hosts and workers owners were given, how many of these were not taken in yet, how far the
/// last entry stands of those that were, and whether the stopper was used. No value of it is made.
pub struct Roll {
    pub now: Moment,
    pub hosts: u64,
    pub workers: u64,
    pub out: u64,
    pub last: u64,
    pub used: bool,
}

/// What one token knows. No value of it is made.
pub enum View {
    /// What is so now.
    Knows(Roll),
    /// That, while this one acts, who last saw this.
    Acts(Roll, Who, Moment),
    /// That, with the stopper, and whether this was used.
    Halts(Roll, bool),
    /// Whose entries it may add, and what lay there as it saw it last.
    Owns(Who, Moment),
    /// Whether it was used to stop all.
    Stops(bool),
    /// Nothing: it was taken in by another.
    Spent,
}
