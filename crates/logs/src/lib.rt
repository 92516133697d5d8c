// What is read from swim logs at the limits of their fields, the nets that they fill, and what is printed for them, as runs of the code.
#![tactic(auto)]

#[cfg(test)]
mod tests;
