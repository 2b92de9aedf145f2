//! Bits in lent slices, the highest bit of a byte first.
//!
//! The crates above rest on one contract: bits put are bits got. What `BitWriter::put` puts follows the bits put before
//! (`Puts`), after `pad` the used bytes spell them and then fewer than 8 zeros (`Pads`), and what `BitReader::get`
//! answers stood at its place (`Reads`), whatever follows. A reader is seen as its place and the list of bits left
//! (`Reading`), a writer as the bits put so far (`bits_put`) and the bytes that it was lent (`lent`).
//!
//! Bits are numbers 0 and 1 in lists; `bits n v` are the n low bits of v, `bits_of` those of bytes. Places count bits
//! from 0.
//!
//! Not promised: what the bytes under bits that are put read before `pad`.
#![tactic(auto)]

mod reader;
mod window;
mod writer;

pub use reader::{BitReader, BitsEnd};
pub use writer::{BitWriter, Full};
