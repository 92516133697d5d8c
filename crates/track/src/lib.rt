// A track: a committed tube and proposals to narrow it, under an allowance of calls.
#![tactic(auto)]

mod account;
mod answer;
mod emptied;
mod proposal;
mod refusal;
mod rest;
mod standing;

pub use answer::{Refused, Used};
pub use refusal::TrackRefusal;
pub use rest::{MAX_ALLOWANCE, make};
pub use standing::{Emptied, Proposal, Rest};
