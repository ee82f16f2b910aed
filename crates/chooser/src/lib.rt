// The first half of a tick: who runs, in which mode, at which speed. It goes by what one pass over the positions has gathered, by one task and one job; only an inherited speed is looked for among all of them.
#![tactic(auto)]

pub mod gather;
mod order;
pub mod rules;
pub mod runner;
pub mod speed;
