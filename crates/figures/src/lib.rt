// Tests of the figures at their limits, by a contractor that is about every trajectory and has whatever figures one likes.
#![tactic(auto)]

mod idle;

pub use idle::Idle;

#[cfg(test)]
mod tests;
