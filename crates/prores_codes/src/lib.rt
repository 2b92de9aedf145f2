//! Combination codes (RDD 36): a number as zeros, a one and binary digits.
//!
//! The crates above rest on one contract: `write` and `read` meet one relation, `Spells`, by the two cases of the
//! standard. `write` puts just the spelling of the number; `read` answers a number exactly where its spelling stands at
//! the place, whatever follows. No spelling is the beginning of another (`spellings_are_apart`).
//!
//! A combination code (a, r, e) has short spellings of at most a zeros, a one and r low bits, and long ones of more
//! zeros and then the binary digits of a number from 2^e on; order k is the code (0, k, k + 1). `fold` makes signed
//! numbers natural ones.
//!
//! `Pairs` and `Heads` are tables of short spellings made by the same code, for speed: pairs of a run and a level to be put
//! at once, and what nine bits begin with.
//!
//! Not promised: that a table answers for given bits; spellings of more than 32 bits, which are neither written nor read.
#![tactic(auto)]

mod choices;
mod classes;
mod code;
mod fault;
mod folded;
mod forms;
mod heads;
mod laws;
mod pairs;
mod spellings;

pub use choices::{dc_code, first_code, level_code, run_code};
pub use code::Code;
pub use fault::CodeFault;
pub use folded::{fold, unfold};
pub use heads::{Heads, LevelHead, RunHead, level_row, run_row};
pub use laws::spellings_are_apart;
pub use pairs::{Pair, Pairs, pair_row};
pub use spellings::{fits, read, small_fits, write};
