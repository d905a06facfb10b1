//! `ReplayOptions` and `ReplayRequest`: what is asked of a replay, and of the program for it.

use argus_guardian::Listing;

/// What is asked of a replay: which listing is written, and whether a prefix of the text will do.
///
/// ```text
/// ReplayOptions { listing: Listing::Audit, prefix: false }
/// ```
#[derive(Clone, Copy, Debug, PartialEq, Eq)]
pub struct ReplayOptions {
    /// What is listed of the guardian.
    pub listing: Listing,
    /// Whether a text that is torn or has a faulty line is listed as far as it goes.
    pub prefix: bool,
}

/// What is asked of the program: the file of a database whose log is replayed, if not standard input
/// is, and how.
#[derive(Debug, Drop)]
pub struct ReplayRequest {
    pub database: Option<String>,
    pub options: ReplayOptions,
}
