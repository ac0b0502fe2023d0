//! Tests of runs of lamps of one action, of their races in a batch over both drivers, and of counting runs that are polled by
//! hand, by drivers and in turn.
#![tactic(auto)]

#[cfg(test)]
mod tests;
