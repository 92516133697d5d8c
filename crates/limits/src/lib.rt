// What tubes and constraints do at their limits, as runs of the code.
#![tactic(auto)]

#[cfg(test)]
mod tests;
