//! `call_is_well_formed`: the parts of a call, read for the proof alone.

ghost use Rattle.argus_contents.specs.Change.{plain_change};
ghost use Rattle.argus_entries.specs.{Call.plain_call, Laws.QueryWithin};
ghost use Rattle.argus_resume.specs.{ReadableCalls.IsWellFormed, WellFormed.IsWellFormedChange};

use crate::well_formed_values::{
    byte, content_is_well_formed, integer, number, value_is_well_formed,
};
use argus_contents::{Change, Query};
use argus_entries::Call;

/// Reads the parts of the call.
pub(crate) fn call_is_well_formed(call: &Call)
    ensures { IsWellFormed (plain_call call.now) }
{
    match call {
        Call::Declare(shape) => shape.limits_are_kept(),
        Call::BeginTop => {}
        Call::BeginSub(a) | Call::BeginNested(a) => number(&a.0),
        Call::Commit(a) | Call::Abort(a) | Call::AbortOthers(a) => number(&a.0),
        Call::Ask(a, o, query) => {
            number(&a.0);
            number(&o.0);
            query_is_well_formed(query);
        }
        Call::Alter(a, o, change) => {
            number(&a.0);
            number(&o.0);
            change_is_well_formed(change);
        }
        Call::TestRead(a, o) | Call::TestWrite(a, o) => {
            number(&a.0);
            number(&o.0);
        }
    }
}

/// Reads the numbers of the query.
fn query_is_well_formed(query: &Query)
    ensures { QueryWithin query.now }
{
    match query {
        Query::Field(part) | Query::IsTag(part) | Query::TagValue(part) => byte(part),
        Query::Fetch(index) => integer(index),
        Query::Whole | Query::Low | Query::High | Query::Size | Query::Bottom | Query::Top => {}
    }
}

/// Reads the parts of the change.
fn change_is_well_formed(change: &Change)
    ensures { IsWellFormedChange (plain_change change.now) }
{
    match change {
        Change::Create(content) => content_is_well_formed(content),
        Change::SetField(part, value) | Change::ChangeTag(part, value) => {
            byte(part);
            value_is_well_formed(value);
        }
        Change::Store(index, value) => {
            integer(index);
            value_is_well_formed(value);
        }
        Change::Addh(value) | Change::Addl(value) => value_is_well_formed(value),
        Change::Remh | Change::Reml | Change::Touch => {}
        Change::SetLow(low) => integer(low),
        Change::Trim(low, size) => {
            integer(low);
            integer(size);
        }
    }
}
