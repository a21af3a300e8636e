#![tactic(auto)]
//! Frames: the 512 words of each page of a board, for everybody who owns it.
//!
//! Contracts see the frames as a list of lists of words. Each call changes only the words that it names, and
//! none takes memory but `Memory::new`. It stands on the numbers of pages alone.

mod frames;

pub use frames::Memory;
