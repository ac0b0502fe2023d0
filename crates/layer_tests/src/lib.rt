//! Tests of single layers that no program's input and output shows: answers to small tasks written by hand.
#![tactic(auto)]

#[cfg(test)]
mod tests;
