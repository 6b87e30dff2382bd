//! `PartHandler`: what is done with the parts of an input.
ghost use Rattle.std.specs.Prelude.{◌≡◌, ◌≤◌, ◌<◌, ◌+◌, ◌^◌, ℕ, List, [], ◌∷◌, ◌++◌, true};
ghost use Rattle.std.specs.ControlFlow.{MatchControlFlow};
ghost use Rattle.script_text.specs.Parts.{Lacks};

use host_storage::OutputStream;
use std::io::Write;
use std::ops::ControlFlow;

/// What is done with the parts of an input, one after another. A run over them goes on until the
/// input ends or the handler ends it.
pub trait PartHandler {
    /// How a run ends.
    type End;

    /// What the run prints to.
    type Writer: Write;

    // The byte that ends a part.
    ghost separator: { Self → ℕ };

    // How many parts were counted.
    ghost count: { Self → ℕ };

    // How far a run has come since its first state: these parts have ended and are handled, and
    // these bytes of the next one have come.
    ghost has_come: { Self → Self → List (List ℕ) → List ℕ → Type 0 };

    // How a run has ended since its first state, if its input has these parts.
    ghost has_ended: { Self → Self → List (List ℕ) → Self.End → Type 0 };

    // All that was printed has been delivered.
    ghost is_delivered: { Self → Type 0 };

    /// Delivers what was printed, before the next read.
    fn prepare(&mut self) -> ControlFlow<Self::End>
        ensures count { count self.new ≡ count self.old }
        ensures came { (first : Self) (parts : List (List ℕ)) (begun : List ℕ) → is_delivered first → has_come first self.old parts begun → MatchControlFlow result
            (λ _. has_come first self.new parts begun × is_delivered self.new)
            (λ end. (last : List ℕ) (more : List (List ℕ)) → has_ended first self.new (parts ++ (begun ++ last) ∷ more) end) };

    /// Returns what the run prints to.
    fn output(&self) -> &OutputStream<'_, Self::Writer>
        ensures { is_delivered self.now → result.now.is_delivered ≡ true };

    /// Takes the next bytes of a part. There is no separator among them.
    fn push(&mut self, bytes: &[u8])
        ensures count { count self.new ≡ count self.old }
        ensures came { (first : Self) (parts : List (List ℕ)) (begun : List ℕ) → has_come first self.old parts begun → has_come first self.new parts (begun ++ bytes.now) };

    /// Handles the part that has ended.
    fn end_part(&mut self) -> ControlFlow<Self::End>
        requires few { count self.old < 2 ^ 32 }
        ensures count { count self.new ≤ count self.old + 1 }
        ensures came { (first : Self) (parts : List (List ℕ)) (part : List ℕ) → has_come first self.old parts part → Lacks (separator first) part → MatchControlFlow result
            (λ _. has_come first self.new (parts ++ part ∷ []) [])
            (λ end. (next : List ℕ) (more : List (List ℕ)) → has_ended first self.new (parts ++ part ∷ next ∷ more) end) };

    /// Handles the last part, if it has a byte, and ends the run.
    fn end_input(&mut self) -> Self::End
        requires few { count self.old ≤ 2 ^ 32 }
        ensures { (first : Self) (parts : List (List ℕ)) (last : List ℕ) → has_come first self.old parts last → Lacks (separator first) last → has_ended first self.new (parts ++ last ∷ []) result };
}
