//! Ports: where a program's numbers come from and go to.
//!
//! A port means the numbers that wait, the numbers written, the room left and the range of numbers that it allows. Every
//! port answers a read and a write as the definitions say, for every such meaning: a refusal changes nothing, and says
//! why. [`lists::ListPort`] reads and fills slices of numbers, [`texts::TextPort`] reads and writes decimals in slices of
//! bytes, and [`fences::Fence`] narrows the range of any port.
//!
//! A text and its numbers are tied both ways: what waits is a function of the bytes from the port's place on, the bytes
//! written are the spellings of the numbers written, one after another, and what was spelled is read back.
//!
//! Nothing is allocated. A call of a list port or of a fence takes constant time beside that of the port below. A read of
//! a text is one pass over the bytes up to the end of the next word, and one more over that word; a write changes 12 bytes
//! at most; `malformed` is such a read for each word up to the first that is malformed.
#![tactic(auto)]

mod decimals;
pub mod faults;
pub mod fences;
pub mod interface;
pub mod lists;
#[cfg(test)]
mod tests;
pub mod texts;
mod words;
