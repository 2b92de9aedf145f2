//! The count of faults.

ghost use Rattle.std.specs.Prelude.{◌≡◌};
ghost use Rattle.rec_bytes.specs.Faults.{HasCause};

use rec_bytes::Failed;

// Counts a call that failed, and passes its result on.
pub(crate) fn counted(faults: &mut u64, done: Result<(), Failed>) -> Result<(), Failed>
    ensures same { result ≡ done }
    ensures cause { HasCause faults.old faults.new result }
{
    if done.is_err() {
        *faults = faults.saturating_add(1);
    }
    done
}
