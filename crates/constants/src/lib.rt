// The numbers of the chip that several crates need, each under one name: addresses, weights of bits, refusals, kinds, ranges and sizes.
#![tactic(auto)]

pub mod address;
pub mod answer;
pub mod kind;
pub mod number;
pub mod part;
pub mod range;
pub mod refusal;
pub mod size;
pub mod weight;
