//! What keeps an area while the disk goes on.

ghost use Rattle.std.specs.Prelude.{◌≡◌, ℕ, IfOk};
ghost use Rattle.rec_bytes.specs.Faults.{HasCause};

use crate::done::Done;
use crate::ticket::Ticket;
use rec_bytes::Failed;

/// What keeps an area, while the disk goes on with other calls.
///
/// It is handed tickets of one disk alone, and its run keeps what that disk did to the ticket's area before the ticket.
pub trait Barrier {
    /// How often it has failed.
    ghost fault_count: { Self → ℕ };

    /// Keeps the area of a ticket.
    fn run(&mut self, ticket: Ticket) -> Result<Done, Failed>
        ensures done { IfOk result (λ done. done ≡ ticket) }
        ensures cause { HasCause (fault_count self.old) (fault_count self.new) result };

    /// How often it has failed. The count stands still at its last value.
    fn faults(&self) -> u64
        ensures { result ≡ fault_count self.now };
}
