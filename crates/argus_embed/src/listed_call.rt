//! `ListedCall`: one call of a list, with what its outcome must be, and what came of it.

ghost use Rattle.std.specs.Prelude.{◌≡◌};
ghost use Rattle.argus_embed.specs.CallEach.{with_codes};

/// One call of a list: a call by numbers (`Request`) with its text, and what its outcome must be
/// for the calls after it to be made. After it was made, `status` and `number` are those of its
/// outcome. This is `argus_listed_call` of the C header.
///
/// | Field | What it says |
/// |---|---|
/// | `kind`, `object`, `first`, `second`, `text` | as in `Request`; the text is UTF-8 |
/// | `demand` | 0: the outcome isn't a refusal; 1: it may be anything; 2: no refusal, no signal |
/// | `begun_by` | 0: the action is `action`; 1, 2 ..: the one that this call of the list began |
///
/// The calls of the list are counted from 1.
///
/// ```text
/// let commit = ListedCall { kind: kinds::COMMIT, begun_by: 1, ..ListedCall::default() };
/// ```
#[repr(C)]
#[derive(Clone, Copy, Debug)]
pub struct ListedCall<'a> {
    pub kind: u32,
    pub demand: u32,
    pub action: u32,
    pub begun_by: u32,
    pub object: u32,
    pub status: u32,
    pub first: i64,
    pub second: i64,
    pub number: i64,
    pub text: &'a [u8],
}

impl<'a> ListedCall<'a> {
    /// The same call, with what came of it.
    pub(crate) fn with_codes(self, codes: (u32, i64)) -> ListedCall<'a>
        ensures { result ≡ with_codes self.exit codes }
    {
        ListedCall {
            status: codes.0,
            number: codes.1,
            ..self
        }
    }
}
