//! What a catalogue is. The definitions that every promise cites are in specs/, their laws in proofs/;
//! the code here is what several crates share: the kinds of list with their limits, and what calls answer.
#![tactic(auto)]

pub mod answer;
pub mod kind;
