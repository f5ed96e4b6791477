//! The trait of the commands that can be wrapped for the option `--only`.

ghost use Rattle.std.specs.Prelude.{◌≡◌, ◌∷◌, ◌++◌, ℕ, Bool, List, [], length};
ghost use Rattle.cli_spec.specs.Outcome.{Output};
ghost use Rattle.cli_spec.specs.declared.exit.Exit.TheVariants.{Finished as finished};
ghost use Rattle.run_spec.specs.runs.Commands.{Item};

use run_loop::work::Work;

/// A command that counts its items, as the option `--only` requires.
pub trait Counts: Work {
    /// Returns the number of items so far.
    fn count(&self) -> u64
        ensures { (bytes : List ℕ) (output : List Output) → Self.has self.now bytes output
            → result ≡ length output };

    /// Returns true if the output for the last item has no error.
    fn last_ok(&self) -> bool
        ensures { (bytes : List ℕ) (before : List Output) (last : Output)
            → Self.has self.now bytes (before ++ last ∷ []) → result ≡ last.ok };

    /// Proves that the run of the command is never finished before the input ends. `never_finishes`
    /// is a lemma method, which does nothing at run time.
    fn never_finishes(&self)
        ensures { (items : List Item) (bytes : List ℕ) (ok : Bool)
            → Self.commands.Exits (Self.act self.now) items bytes (finished ok) → ⊥ };
}
