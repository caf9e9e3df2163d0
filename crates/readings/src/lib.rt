// What readings mean, whatever holds them, and what is asked of them.
// It knows the tariff's vocabulary and no store. Each question is answered for every kind of
// readings, from what they mean alone, and changes nothing.
#![tactic(auto)]

pub mod questions;
pub mod readings;
