//! What holds of a guardian at every moment, since its type's invariant says that its journal is
//! legal.

ghost use Rattle.std.specs.Prelude.{◌≡◌, ◌<◌, ◌∷◌, ◌++◌, ◌||◌, List, reverse, true, ℕ};
ghost use Rattle.argus_entries.specs.Entry.{PlainEntry};
ghost use Rattle.argus_journal.specs.{Entries.entries, Legal.Legal, Objects.{declared, shape_of}};
ghost use Rattle.argus_journal.specs.Opening.{KeepsNumbers, content_in, fits_shape, is_sound};
ghost use Rattle.argus_journal.specs.{Serial.AnswersAt, JournalFacts.writers_of};
ghost use Rattle.argus_journal.specs.JournalFacts.{base_of, is_ancestor_in, is_live_in, readers_of};
ghost use Rattle.argus_journal.specs.JournalFacts.{visible_to, serial_run, serial_run_to};
ghost use Rattle.argus_model.specs.{Numbers.contains, Run.{AnswersAgain, run}};
ghost use Rattle.argus_model.specs.Work.{Access, content_after};

use crate::guardian::Guardian;
use argus_journal::laws;

impl Guardian {
    /// A law for proofs; it does nothing. Each reply of the journal is the answer of the entries
    /// before it, each content of the opening fits its shape, and the opening is within the limits
    /// of objects, actions and entries. So every law of a legal journal holds of this one.
    pub fn journal_is_legal(&self)
        ensures legal { Legal self.now.opening self.now.entries }
        ensures sound { is_sound self.now.opening ≡ true }
        ensures limits { KeepsNumbers self.now.opening }
    {
        let _ = self.state.objects.len();
    }

    /// A law for proofs; it does nothing. Of an object's write holder and any other holder, one is
    /// an ancestor of the other, and all holders are live. So the writers, listed in increasing
    /// number, go from ancestor to descendant.
    ///
    /// Source: the locking rules of Moss, Nested Transactions (MIT/LCS/TR-260, 1981).
    pub fn exclusion(&self)
        ensures related { let s = self.now.opening in let j = self.now.entries in
            (o x y : ℕ) → contains (writers_of s j o) x ≡ true
            → contains (readers_of s j o ++ writers_of s j o) y ≡ true
            → (is_ancestor_in s j x y || is_ancestor_in s j y x) ≡ true }
        ensures chain { let s = self.now.opening in let j = self.now.entries in
            (o x y : ℕ) → contains (writers_of s j o) x ≡ true
            → contains (writers_of s j o) y ≡ true → x < y → is_ancestor_in s j x y ≡ true }
        ensures live { let s = self.now.opening in let j = self.now.entries in
            (o x : ℕ) → contains (readers_of s j o ++ writers_of s j o) x ≡ true
            → is_live_in s j x ≡ true }
    {
        let _ = self.state.objects.len();
        laws::exclusion();
    }

    /// A law for proofs; it does nothing. An object's base is what the serial run leaves in it: the
    /// work of the committed topactions, one after another in the order of their commits.
    ///
    /// Source: atomicity of actions, Argus Reference Manual (MIT/LCS/TR-400, 1987).
    pub fn base_is_serial(&self)
        ensures { let s = self.now.opening in let j = self.now.entries in
            (o : ℕ) → content_after entries (content_in s.objects) o (serial_run s j)
            ≡ base_of s j o }
    {
        let _ = self.state.objects.len();
        laws::base_is_serial();
    }

    /// A law for proofs; it does nothing. The committed topactions, run one after another in the
    /// order of their commits from the contents of the opening, and within each action its
    /// committed subactions likewise, give each reply again: every access gets its answer from what
    /// its object holds just before it. They leave each object's base in it.
    ///
    /// Source: serializability, Moss, Nested Transactions (MIT/LCS/TR-260, 1981); atomicity of
    /// actions, Argus Reference Manual (MIT/LCS/TR-400, 1987).
    pub fn committed_work_runs_again(&self)
        ensures answers { let s = self.now.opening in let j = self.now.entries in
            AnswersAgain entries (content_in s.objects) (reverse (serial_run s j)) }
        ensures each { let s = self.now.opening in let j = self.now.entries in
            (later : List (Access PlainEntry)) (e : Access PlainEntry)
            (earlier : List (Access PlainEntry)) → serial_run s j ≡ later ++ e ∷ earlier
            → AnswersAt (content_in s.objects) e earlier }
        ensures leaves { let s = self.now.opening in let j = self.now.entries in
            (o : ℕ) → run entries (content_in s.objects) (reverse (serial_run s j)) o
            ≡ base_of s j o }
    {
        let _ = self.state.objects.len();
        laws::committed_work_runs_again();
    }

    /// A law for proofs; it does nothing. The same holds of that run followed by the work of a live
    /// action's ancestors, the topmost first, and its own. It leaves in each object what the action
    /// sees. So an action that is aborted later had serial answers while it was live.
    ///
    /// Source: as of `committed_work_runs_again`.
    pub fn live_work_runs_again(&self)
        ensures begins { let s = self.now.opening in let j = self.now.entries in
            (a : ℕ) → is_live_in s j a ≡ true
            → (more : List (Access PlainEntry)) × (serial_run_to s j a ≡ more ++ serial_run s j) }
        ensures answers { let s = self.now.opening in let j = self.now.entries in
            (a : ℕ) → is_live_in s j a ≡ true
            → AnswersAgain entries (content_in s.objects) (reverse (serial_run_to s j a)) }
        ensures each { let s = self.now.opening in let j = self.now.entries in
            (a : ℕ) (later : List (Access PlainEntry)) (e : Access PlainEntry)
            (earlier : List (Access PlainEntry)) → is_live_in s j a ≡ true
            → serial_run_to s j a ≡ later ++ e ∷ earlier
            → AnswersAt (content_in s.objects) e earlier }
        ensures leaves { let s = self.now.opening in let j = self.now.entries in
            (a o : ℕ) → is_live_in s j a ≡ true
            → run entries (content_in s.objects) (reverse (serial_run_to s j a)) o
            ≡ visible_to s j a o }
    {
        let _ = self.state.objects.len();
        laws::live_work_runs_again();
    }

    /// A law for proofs; it does nothing. An object's base, and what an action sees in it, is
    /// absent or fits the object's shape with the objects declared so far.
    ///
    /// Source: the built-in atomic types of the Argus Reference Manual (MIT/LCS/TR-400, 1987).
    pub fn contents_fit(&self)
        ensures base { let s = self.now.opening in let j = self.now.entries in
            (o : ℕ) → fits_shape (shape_of s j o) (declared s j) (base_of s j o) ≡ true }
        ensures seen { let s = self.now.opening in let j = self.now.entries in
            (a o : ℕ) → fits_shape (shape_of s j o) (declared s j) (visible_to s j a o) ≡ true }
    {
        let _ = self.state.objects.len();
        laws::contents_fit();
    }
}
