//! The disk of a take: its two areas, what a crash may leave of them, and barriers that settle what was written.
//!
//! The contract that the crates above rest on is the trait `TakeDisk`. What a disk holds is a value (`Held` of
//! `specs/Held.antt`), each call changes that value in one way (`Changed`, `Settled`), and what a crash leaves is an image of
//! it (`IsImage`, by the law `crash`). `Barrier::run` keeps an area while the disk goes on, and alone makes the `Done` with
//! which the disk settles a ticket.
//!
//! Terms: a *moment* counts what was done to a disk; a place of an area is *touched* where it is written or cut, and *kept*
//! where that was settled since; an *image* is what a crash leaves of an area; a *ticket* names an area and the moment at
//! which it was made. A disk that *tells* shows all this in its contracts.
//!
//! Not promised: anything of what files hold, or of what a system keeps.
#![tactic(auto)]

mod append;
mod area;
mod area_file;
mod area_image;
mod area_record;
mod barrier;
mod disk;
mod done;
mod entry;
mod fault_count;
mod file_barrier;
mod file_disk;
#[cfg(test)]
mod file_tests;
#[cfg(test)]
mod image_tests;
mod memory_area;
mod memory_barrier;
mod memory_calls;
mod memory_disk;
mod memory_image;
mod memory_record;
mod pick;
#[cfg(test)]
mod tests;
mod ticket;

pub use area::Area;
pub use barrier::Barrier;
pub use disk::TakeDisk;
pub use done::Done;
pub use file_barrier::FileBarrier;
pub use file_disk::{Access, FileDisk};
pub use memory_barrier::MemoryBarrier;
pub use memory_disk::MemoryDisk;
pub use pick::Pick;
pub use ticket::Ticket;
