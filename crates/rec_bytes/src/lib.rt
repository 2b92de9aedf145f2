//! The lowest layer: numbers in bytes, the configuration of a take, the faults of devices, and the answer of a program.
//!
//! The crates above rest on one relation, `Spells` of `specs/Configuration.antt`: `read_config` and
//! `put_config` promise it of the same 64 bytes, so what one writes the other reads as the same fields, and
//! 64 bytes that break no rule are the spelling of their fields (`spellings_are_configurations`).
//! A number at a place is `number_at`, and a write at a place `with_bytes`, both of `specs/Places.antt`.
//! What every call of a device promises of its count of faults is `HasCause` of `specs/Faults.antt`.
//!
//! Terms: a *place* is a byte counted from 0; a *rule* is what the format asks of one field; the
//! *spelling* of a configuration is the 64 bytes that stand for it, and no others do.
//!
//! Nothing here takes memory, and nothing says what a configuration means to the encoder.
#![tactic(auto)]

mod config;
mod config_bytes;
mod config_fields;
mod number;
mod status;
#[cfg(test)]
mod tests;

pub use config::Config;
pub use config_bytes::{put_config, read_config, spellings_are_configurations};
pub use config_fields::{
    CONFIG_LEN, MAX_ASPECT, MAX_BUDGET, MAX_CODING, MAX_DROP, MAX_FRAMES, MAX_HEIGHT, MAX_INDEX,
    MAX_INTERLACE, MAX_LAG, MAX_LOG2, MAX_PART, MAX_RATE, MAX_WEIGHTS, MAX_WIDTH,
};
pub use number::{
    put_bytes, put_u8, put_u16, put_u32, put_u64, take_u8, take_u16, take_u32, take_u64,
};
pub use status::{Failed, Memory, Status};
