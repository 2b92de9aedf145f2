//! What holds of every run of a take, whatever events come in whatever order. No function here does anything.

ghost use Rattle.std.specs.Prelude.{◌≡◌, ◌<◌, ◌≤◌, ◌+◌, ℕ, List, ◌∷◌, ◌++◌, length, Contains};
ghost use Rattle.rec_bytes.specs.Configuration.{Fields};
ghost use Rattle.take_core.specs.History.{IsLegal, acked_in, after, latest, phase_in, published_in};
ghost use Rattle.take_core.specs.Runs.{Turn, IsRun, WasTaken, look};
ghost use Rattle.take_core.specs.Sound.{IsSound};
ghost use Rattle.take_core.specs.States.{CoreState, fresh, published};
ghost use Rattle.take_core.specs.Steps.{Steps};
ghost use Rattle.take_core.specs.declared.entry.Entry.{Entry};
ghost use Rattle.take_core.specs.declared.event.Answer.{Answer};
ghost use Rattle.take_core.specs.declared.event.Answer.TheVariants.{Done, Seen};
ghost use Rattle.take_core.specs.declared.event.Event.{Event};
ghost use Rattle.take_core.specs.declared.event.Event.TheVariants.{Publish, Look};
ghost use Rattle.take_core.specs.declared.snapshot.Phase.{Phase};
ghost use Rattle.take_core.specs.declared.snapshot.Snapshot.{Snapshot};

/// An event leads from a state to one state, with one answer.
pub fn steps_are_one()
    ensures answer { (old new other : CoreState) (event : Event) (answer second : Answer) → Steps old event answer new
        → Steps old event second other → answer ≡ second }
    ensures state { (old new other : CoreState) (event : Event) (answer second : Answer) → Steps old event answer new
        → Steps old event second other → new ≡ other }
{}

/// Whatever events come, the history is one that a take may have.
pub fn runs_are_legal()
    ensures { (cfg : Fields) (turns : List Turn) (last : CoreState) → IsRun cfg turns last
        → IsLegal cfg.lag cfg.max_frames last.history }
{}

/// A take begins in a sound state, and every event leads from a sound state to one.
pub fn states_stay_sound()
    ensures begun { (cfg : Fields) → IsSound (fresh cfg) }
    ensures kept { (old new : CoreState) (event : Event) (answer : Answer) → Steps old event answer new → IsSound old → IsSound new }
{}

/// Every slice of a frame was taken before the frame was published.
pub fn published_slices_were_in()
    ensures at_publish { (cfg : Fields) (turns : List Turn) (state new : CoreState) (len index : ℕ) → IsRun cfg turns state
        → Steps state (Publish len) Done new → index < state.slices → WasTaken turns (published state) index }
    ensures published { (cfg : Fields) (turns : List Turn) (last : CoreState) (frame index : ℕ) → IsRun cfg turns last
        → frame < published last → index < last.slices → WasTaken turns frame index }
{}

/// Whoever looks sees the history as it is then: its first entries, as many as there are. So along a run the steps that
/// readers see never fall.
pub fn looks_see_the_history()
    ensures at_look { (state new : CoreState) (reader : ℕ) (answer : Answer) → Steps state (Look reader) answer new
        → answer ≡ Seen (latest state.history) }
    ensures first_entries { (cfg : Fields) (turns : List Turn) (last : CoreState) (reader : ℕ) (seen : Snapshot) → IsRun cfg turns last
        → Contains turns (look reader seen) → (seen.step ≤ length last.history) × (seen ≡ after last.history seen.step) }
    ensures rising { (cfg : Fields) (before between behind : List Turn) (last : CoreState) (one other : ℕ) (sooner later : Snapshot)
        → IsRun cfg (before ++ look one sooner ∷ (between ++ look other later ∷ behind)) last → sooner.step ≤ later.step }
{}

/// The history of a take that goes on has at most an entry for each published and each durable frame.
pub fn histories_fit()
    ensures { (lag max_frames : ℕ) (history : List Entry) → IsLegal lag max_frames history → phase_in history ≡ Phase.Growing
        → length history ≤ published_in history + acked_in history }
{}
