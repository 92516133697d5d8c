// What a contractor is: one interface, and what each implementation behind it owes; and the layers, which are contractors made of contractors.
#![tactic(auto)]

mod answer;
mod build;
mod contractor;
mod layers;
mod refusal;

pub use answer::{Answer, Fault, Mark, Verdict};
pub use build::BuildRefusal;
pub use contractor::Contractor;
pub use layers::{Both, Either, Repeat, Rounds};
pub use refusal::{MAX_CALLS, MAX_LAYERS, UseRefusal};
