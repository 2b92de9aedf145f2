//! What follows of commit files, stated once for the crates above. No function here does anything.

ghost use Rattle.std.specs.Prelude.{◌≡◌, ◌≤◌, ◌+◌, ℕ, List, [], ◌∷◌, ◌++◌, length, take, drop, Option, Some, None};
ghost use Rattle.rec_bytes.specs.Configuration.{Fields};
ghost use Rattle.rec_bytes.specs.Places.{with_bytes};
ghost use Rattle.take_core.specs.declared.mark.Mark.{Mark};
ghost use Rattle.take_disk.specs.Held.{Areas};
ghost use Rattle.commit_sidecar.specs.Looks.{BeginsHead, Sees, HasRead, IsEnough};
ghost use Rattle.commit_sidecar.specs.Notes.{note_of, Fits, IsLater, Follows, last_of};
ghost use Rattle.commit_sidecar.specs.Says.{Says, gate_place, said};
ghost use Rattle.commit_sidecar.specs.Refusals.{Refuses, IsNoTake};
ghost use Rattle.commit_sidecar.specs.Recovers.{Recovers};
ghost use Rattle.commit_sidecar.specs.declared.file.SaidFault.{SaidFault};
ghost use Rattle.commit_sidecar.specs.declared.file.SaidFault.TheVariants.{Damaged};
ghost use Rattle.commit_sidecar.specs.declared.file.TheConstants.{COMMITS_AREA};
ghost use Rattle.commit_sidecar.specs.declared.head.TheConstants.{HEAD_LEN};
ghost use Rattle.commit_sidecar.specs.declared.looks.Look.{Look};
ghost use Rattle.commit_sidecar.specs.declared.looks.Look.TheVariants.{Shut, Open, Broken};
ghost use Rattle.commit_sidecar.specs.declared.note.TheConstants.{RECORD_LEN};

use take_layout::{TakeLayout, files_are_one};

/// A commit file says one thing or has one refusal, and not both.
pub fn files_say_one_thing()
    ensures one { (commits : List ℕ) (cfg other : Fields) (marks others : List Mark) → Says commits cfg marks
        → Says commits other others → (cfg ≡ other) × (marks ≡ others) }
    ensures said { (commits : List ℕ) (cfg : Fields) (marks : List Mark) (fault : SaidFault) → Says commits cfg marks
        → Refuses commits fault → ⊥ }
    ensures refused { (commits : List ℕ) (fault other : SaidFault) → Refuses commits fault → Refuses commits other
        → fault ≡ other }
{}

/// A note and the next gate, written behind the gate that isn't open, change nothing of what a commit file says. Once this
/// gate is opened it says one mark more.
pub fn commits_say()
    ensures noted { (commits : List ℕ) (cfg : Fields) (marks : List Mark) (bytes : List ℕ) → Says commits cfg marks
        → Says (with_bytes commits (gate_place (length marks) + 1) bytes) cfg marks }
    ensures opened { (commits : List ℕ) (cfg : Fields) (marks : List Mark) (mark : Mark) → Says commits cfg marks
        → Follows (last_of marks) mark
        → Says (with_bytes (with_bytes commits (gate_place (length marks) + 1) (note_of mark ++ 0 ∷ []))
        (gate_place (length marks)) (1 ∷ [])) cfg (marks ++ mark ∷ []) }
{}

/// A mark may stand behind all where it may stand behind the mark that counts.
pub fn marks_follow()
    ensures { (head_len : ℕ) (marks : List Mark) (mark : Mark) → Fits mark → IsLater (said head_len marks) mark
        → Follows (last_of marks) mark }
{}

/// A commit file is read record by record: its head, and then one open record more for each look that sees one. The place
/// behind what was read is one of the file, and a record that is seen there is whole.
pub fn records_are_read()
    ensures head { (commits : List ℕ) (cfg : Fields) → BeginsHead commits cfg → HasRead commits cfg HEAD_LEN 0 None }
    ensures more { (commits : List ℕ) (cfg : Fields) (at number : ℕ) (last : Option Mark) (mark : Mark)
        → HasRead commits cfg at number last → Sees last (drop at commits) (Open mark)
        → HasRead commits cfg (at + RECORD_LEN) (number + 1) (Some mark) }
    ensures within { (commits : List ℕ) (cfg : Fields) (at number : ℕ) (last : Option Mark) → HasRead commits cfg at number last
        → at ≤ length commits }
    ensures whole { (commits : List ℕ) (cfg : Fields) (at number : ℕ) (last : Option Mark) (mark : Mark)
        → HasRead commits cfg at number last → Sees last (drop at commits) (Open mark) → at + RECORD_LEN ≤ length commits }
{}

/// A look that sees no open record ends the reading: the file says the marks that were read, or it is damaged at this place.
pub fn reading_ends()
    ensures said { (commits : List ℕ) (cfg : Fields) (at number : ℕ) (last : Option Mark)
        (read : HasRead commits cfg at number last) → Sees last (drop at commits) Shut → Says commits cfg read.marks }
    ensures damaged { (commits : List ℕ) (cfg : Fields) (at number : ℕ) (last : Option Mark) → HasRead commits cfg at number last
        → Sees last (drop at commits) Broken → Refuses commits (Damaged at COMMITS_AREA) }
{}

/// What the first bytes show holds of all bytes, where they are as many as a record or a head has, or all.
pub fn first_bytes_decide()
    ensures looks { (rest : List ℕ) (number : ℕ) (last : Option Mark) (look : Look) → IsEnough RECORD_LEN number rest
        → Sees last (take number rest) look → Sees last rest look }
    ensures head { (commits : List ℕ) (number : ℕ) (cfg : Fields) → BeginsHead (take number commits) cfg → BeginsHead commits cfg }
    ensures no_take { (commits : List ℕ) (number at : ℕ) → IsEnough HEAD_LEN number commits → IsNoTake (take number commits) at
        → IsNoTake commits at }
{}

/// Two areas are recovered to one list of units at most, whatever the layout.
pub fn recoveries_are_one<L: TakeLayout>()
    ensures { (areas : Areas) (cfg other : Fields) (units others : List (List ℕ)) → Recovers L.TakeLayout cfg units areas
        → Recovers L.TakeLayout other others areas → (cfg ≡ other) × (units ≡ others) }
{
    files_are_one::<L>();
}
