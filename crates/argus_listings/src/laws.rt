//! What holds of the listings of each guardian. The functions do nothing: their contracts are the
//! laws.

ghost use Rattle.std.specs.Prelude.{◌≡◌, ◌++◌, List, ℕ};
ghost use Rattle.argus_journal.specs.JournalFacts.{base_of, versions_of};
ghost use Rattle.argus_listings.specs.Listing.{audit_text, base_again, base_line, version_lines};
ghost use Rattle.argus_listings.specs.Listing.{versions_again};

use argus_core::Guardian;

/// A law for proofs; it does nothing. What the journal's writes leave when they are run again is
/// what the guardian holds. So the audit says of each object what the stacks say of its base and
/// its versions.
pub fn audits_agree_with_stacks(guardian: &Guardian)
    ensures base { (o : ℕ) → base_again guardian.now o
        ≡ base_of guardian.now.opening guardian.now.entries o }
    ensures versions { (o : ℕ) → versions_again guardian.now o
        ≡ versions_of guardian.now.opening guardian.now.entries o }
    ensures lines { (o : ℕ) (name : List ℕ) → audit_text guardian.now o name
        ≡ base_line name (base_of guardian.now.opening guardian.now.entries o)
        ++ version_lines name (versions_of guardian.now.opening guardian.now.entries o) }
{
    guardian.journal_is_legal();
}
