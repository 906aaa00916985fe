//! Rows of bits in words of 64, and the states of ports in two bits each.
#![tactic(auto)]

mod bits;
mod numbers;
mod ports;
mod row;
mod summed;
mod word;

pub use bits::PortBits;
pub use numbers::PortNumbers;
pub use ports::PortStates;
pub use row::BitRow;
pub use summed::SummedRow;
pub use word::{PortWord, places};
