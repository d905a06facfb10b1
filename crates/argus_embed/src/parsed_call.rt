//! `ParsedCall`: a call that was read of its request, and isn't made yet.

ghost use Rattle.std.specs.Prelude.{IfErr, IfOk, OnErr, ◌≡◌};
ghost use Rattle.argus_embed.specs.{ParsedCall.{IsMadeOf, IsParsed}, Requests.IsUnread};

use crate::embed_error::EmbedError;
use crate::embedded::Embedded;
use crate::outcome::Outcome;
use crate::request::Request;
use crate::requesting::call_of;
use argus_journal::Call;
use argus_values::OutOfMemory;
use std::marker::Model;

/// A call that was read of its request. A host reads a long text while others use the guardian, and
/// then makes the call. Contracts see the call.
///
/// ```text
/// let parsed = other.parse(&create, text)?;               // in the same heap as `bank`
/// let outcome = bank.call_parsed(parsed)?;
/// ```
#[derive(Debug, Drop)]
pub struct ParsedCall {
    call: Call,
}

impl Model for ParsedCall {
    ghost use Rattle.argus_journal.specs.Call.{plain_call};
    ghost use Rattle.argus_embed.specs.ParsedCall.{ParsedState, parsed_state_coded};
    ghost use Rattle.argus_guardian.specs.Calls.{IsReadableCall};

    ghost Value = { ParsedState };

    ghost coded = { parsed_state_coded };

    ghost view = { λ p. plain_call p.call };

    ghost invariant = { λ p. IsReadableCall (plain_call p.call) };
}

impl Embedded {
    /// Reads the call that the request with its text stands for, in this guardian's heap, and makes
    /// nothing of it. The errors are those of `call`.
    pub fn parse(&self, request: &Request, text: &str) -> Result<ParsedCall, EmbedError>
        ensures parsed { IfOk result (λ parsed. IsParsed request.now text.now parsed) }
        ensures unread { IfErr result (λ e. IsUnread request.now text.now e) }
    {
        let call = call_of(self.heap, request, text)?;
        Ok(ParsedCall { call })
    }

    /// Makes a call that was read before, as `call` makes it at once. `OutOfMemory`: nothing has
    /// changed, and the call is dropped.
    pub fn call_parsed(&mut self, parsed: ParsedCall) -> Result<Outcome, OutOfMemory>
        ensures made { IfOk result (λ outcome. IsMadeOf parsed self.old self.new outcome) }
        ensures err { OnErr result (self.new ≡ self.old) }
    {
        let ParsedCall { call } = parsed;
        let reply = self.guardian.call(call)?;
        Ok(self.keep_reply(reply))
    }
}
