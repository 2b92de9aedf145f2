//! The disk of a take, what it tells, and what its calls promise.

ghost use Rattle.std.specs.Prelude.{◌≡◌, ◌≤◌, ◌+◌, ℕ, Bool, true, Option, Some, None, length, take, drop, OnOk, OnErr};
ghost use Rattle.rec_bytes.specs.Faults.{HasCause};
ghost use Rattle.take_disk.specs.declared.area.Area.{Area};
ghost use Rattle.take_disk.specs.declared.ticket.Ticket.{Ticket};
ghost use Rattle.take_disk.specs.Held.{Moment, IsBefore, Areas, Disk, InArea, Settled, Leaves, IsPast, in_area};
ghost use Rattle.take_disk.specs.Calls.{IfTold, Steps, WritesIn, Writes, CutsIn, Cuts, Grows, Shrinks, Stays, Elapses};
ghost use Rattle.take_disk.specs.Tickets.{IsNamed, IsMade, moment_of};

use crate::area::Area;
use crate::done::Done;
use crate::ticket::Ticket;
use rec_bytes::Failed;

/// A disk with the two areas of a take.
///
/// What was written or cut is unsettled until a sync of its area, or a barrier's run that is settled. A crash leaves what is
/// settled, and of the rest anything.
pub trait TakeDisk {
    /// What it holds, where it tells it.
    ghost told: { Self → Option Disk };

    /// The length of an area.
    ghost length_of: { Self → Area → ℕ };

    /// The moment, which no call lowers.
    ghost moment: { Self → Moment };

    /// What a crash at some moment from that one on may have left.
    ghost images_since: { Self → Moment → Areas → Type 0 };

    /// Whether it made a ticket.
    ghost made: { Self → Ticket → Type 0 };

    /// How often it has failed.
    ghost fault_count: { Self → ℕ };

    /// Whether it is one device, whose moments have one number.
    ghost is_single: { Bool };

    /// The length of an area.
    fn len(&self, area: Area) -> u64
        ensures { result ≡ length_of self.now area };

    /// Reads the bytes from a place on that fill `out`.
    fn read(&mut self, area: Area, at: u64, out: &mut [u8]) -> Result<(), Failed>
        requires inside { at + length out.old ≤ length_of self.old area }
        ensures read { OnOk result (IfTold (told self.old)
            (λ disk. out.new ≡ take (length out.old) (drop at ((in_area area disk).reads)))) }

        ensures unchanged { Stays (told self.old) (told self.new) (length_of self.old) (length_of self.new) }
        ensures time { Elapses (moment self.old) (moment self.new) (images_since self.old) (images_since self.new) (made self.old) (made self.new) }
        ensures cause { HasCause (fault_count self.old) (fault_count self.new) result };

    /// Writes bytes at a place up to the area's end, which may go beyond it. One that failed may have written any bytes in
    /// their place.
    fn write(&mut self, area: Area, at: u64, bytes: &[u8]) -> Result<(), Failed>
        requires inside { at ≤ length_of self.old area }
        ensures torn { Steps (told self.old) (told self.new) (WritesIn area at (length bytes.now)) }
        ensures written { OnOk result (Steps (told self.old) (told self.new) (Writes area at bytes.now)) }
        ensures lengths { Grows area (at + length bytes.now) (length_of self.old) (length_of self.new) result }

        ensures time { Elapses (moment self.old) (moment self.new) (images_since self.old) (images_since self.new) (made self.old) (made self.new) }
        ensures cause { HasCause (fault_count self.old) (fault_count self.new) result };

    /// Cuts an area to a length. One that failed may have cut it to any length from there on.
    fn cut(&mut self, area: Area, len: u64) -> Result<(), Failed>
        requires inside { len ≤ length_of self.old area }
        ensures torn { Steps (told self.old) (told self.new) (CutsIn area len) }
        ensures cut { OnOk result (Steps (told self.old) (told self.new) (Cuts area len)) }
        ensures lengths { Shrinks area len (length_of self.old) (length_of self.new) result }

        ensures time { Elapses (moment self.old) (moment self.new) (images_since self.old) (images_since self.new) (made self.old) (made self.new) }
        ensures cause { HasCause (fault_count self.old) (fault_count self.new) result };

    /// Settles all that was done to an area.
    fn sync(&mut self, area: Area) -> Result<(), Failed>
        ensures synced { OnOk result (Steps (told self.old) (told self.new) (InArea area (Settled (moment self.old)))) }
        ensures lengths { (a : Area) → length_of self.new a ≡ length_of self.old a }

        ensures unchanged { OnErr result (told self.new ≡ told self.old) }
        ensures time { Elapses (moment self.old) (moment self.new) (images_since self.old) (images_since self.new) (made self.old) (made self.new) }
        ensures cause { HasCause (fault_count self.old) (fault_count self.new) result };

    /// A ticket for what was done to an area so far. One with the greatest number names no moment.
    fn ticket(&mut self, area: Area) -> Ticket
        ensures area { result.area ≡ area }
        ensures single { is_single ≡ true → result.twin ≡ None }
        ensures named { IsNamed result → IsMade (moment self.old) (moment self.new) result × made self.new result }

        ensures unchanged { Stays (told self.old) (told self.new) (length_of self.old) (length_of self.new)
            × (fault_count self.new ≡ fault_count self.old) }
        ensures time { Elapses (moment self.old) (moment self.new) (images_since self.old) (images_since self.new) (made self.old) (made self.new) };

    /// Settles what was done to the ticket's area before the ticket. What was done since stays unsettled.
    fn settle(&mut self, done: Done)
        requires made { made self.old done }
        requires named { IsNamed done }
        ensures settled { Steps (told self.old) (told self.new) (InArea done.area (Settled (moment_of done))) }
        ensures lengths { (a : Area) → length_of self.new a ≡ length_of self.old a }

        ensures time { Elapses (moment self.old) (moment self.new) (images_since self.old) (images_since self.new) (made self.old) (made self.new) }
        ensures cause { fault_count self.new ≡ fault_count self.old };

    /// How often it has failed. The count stands still at its last value.
    fn faults(&self) -> u64
        ensures { result ≡ fault_count self.now };

    /// A crash now leaves an image of what it holds.
    ghost crash: { (d : Self) (disk : Disk) (image : Areas) → told d ≡ Some disk → images_since d (moment d) image → Leaves disk image };

    /// What a crash at some moment from one on may have left, is also such an image from an earlier one on.
    ghost earlier: { (d : Self) (a b : Moment) (image : Areas) → IsBefore a b → images_since d b image → images_since d a image };

    /// A disk as it reads is one of its images.
    ghost reads_so: { (d : Self) (disk : Disk) → told d ≡ Some disk
        → images_since d (moment d) (record { essence = disk.essence.reads; commits = disk.commits.reads }) };

    /// The lengths are those of what is read.
    ghost long: { (d : Self) (disk : Disk) (area : Area) → told d ≡ Some disk → length_of d area ≡ length ((in_area area disk).reads) };

    /// Nothing was written or cut later than now.
    ghost past: { (d : Self) (disk : Disk) (area : Area) → told d ≡ Some disk → IsPast (moment d) (in_area area disk) };

    /// A disk of one device keeps the second number of its moments at 0.
    ghost alone: { (d : Self) → is_single ≡ true → (moment d).second ≡ 0 };
}
