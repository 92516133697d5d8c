// Tests of piles and of whole tracks: what is answered, which calls are refused and with which number, and what is left.
#![tactic(auto)]

#[cfg(test)]
mod layers;
#[cfg(test)]
mod nets;
#[cfg(test)]
mod tracks;
