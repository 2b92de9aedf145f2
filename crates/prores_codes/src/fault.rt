use thiserror::Error;

/// Why bits don't begin with a code.
#[derive(Clone, Copy, Debug, PartialEq, Eq, Error)]
pub enum CodeFault {
    /// Zeros at bit `at` make the code longer than 32 bits.
    #[error("the code at bit {at} has more than 32 bits")]
    TooLong { at: u64 },
    /// No whole code stands at bit `at`.
    #[error("the bits end inside the code at bit {at}")]
    BitsEnd { at: u64 },
}
