//! `Listing`: what is listed of a guardian.

/// What is listed of a guardian. Objects come in the order of their numbers, each under its name. A
/// content is listed in its written form, or as `absent` if there is none.
///
/// | Listing | Lines |
/// |---|---|
/// | `Bases` | for each object `acct {7}`: its base |
/// | `Stacks` | for each object `acct base {7}`, then its readers, then its versions |
/// | `Journal` | the opening, if entries went before it; then each entry's line |
/// | `Audit` | for each object its base and its versions, by the journal; then `entries 6` |
///
/// Readers are `acct readers a1 a2`, or `acct readers none`. A version is `acct version a3 {8}`;
/// they go from ancestor to descendant. An opening is `opening entries 6 actions 1`: the numbers of
/// the first entry and the first action; and `opening o0 atomic_record[balance:int] {7}` for each
/// object. The last line of an audit has the number of the next entry.
///
/// ```text
/// write_listing(heap, &guardian, script.names(), Listing::Stacks, &mut writer)?;
/// ```
#[derive(Clone, Copy, Debug, PartialEq, Eq)]
pub enum Listing {
    Bases,
    Stacks,
    Journal,
    Audit,
}
