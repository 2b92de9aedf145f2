ghost use Rattle.std.specs.Prelude.{◌≡◌};
ghost use Rattle.slice_parts.specs.Faults.{of_code};

use prores_codes::CodeFault;
use thiserror::Error;

/// Why bits are no part. Places count the part's bits from 0.
#[derive(Clone, Copy, Debug, PartialEq, Eq, Error)]
pub enum PartFault {
    /// The bits end inside the code at bit `at`, or where the sign bit `at` is due.
    #[error("the bits end inside what is due at bit {at}")]
    BitsEnd { at: u64 },
    /// The code at bit `at` has more than 32 bits.
    #[error("the code at bit {at} has more than 32 bits")]
    TooLong { at: u64 },
    /// The run at bit `at` passes the last level.
    #[error("the run at bit {at} passes the last level")]
    RunPast { at: u64 },
}

/// A code's fault as the part's.
pub fn of_code(fault: CodeFault) -> PartFault
    ensures { result ≡ of_code fault }
{
    match fault {
        CodeFault::TooLong { at } => PartFault::TooLong { at },
        CodeFault::BitsEnd { at } => PartFault::BitsEnd { at },
    }
}
