//! Sets of numbers as bits, 64 numbers to a word.
//!
//! A row (`row`) has as many words as its greatest number asks for, so an empty one costs nothing. The other sets give their
//! least member: `Flat` looks through its words. `Layer` stands over a set of the places of its words that are not 0, so that
//! layers over a `Flat` find the least member in one step a layer: a radix tree over bit words, as van Emde Boas's trees are in
//! practice. `First` keeps the least member of such a set beside the others. `word` has what an operation does to one word.
//!
//! `marks` has sets that are filled and emptied again and again: a table with a mark for each number is made once, and putting in,
//! asking and emptying touch only the numbers that were put in.
//!
//! The next least number is sought in the word of the last one first, then in the words near it, and then from the top.
#![tactic(auto)]

pub mod first;
pub mod flat;
pub mod layer;
pub mod marks;
pub mod row;
pub mod set;
pub mod word;
