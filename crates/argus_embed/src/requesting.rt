//! The call that a request stands for.

ghost use Rattle.std.specs.Prelude.{IfErr, IfOk, List, OnOk, pos, ℕ, ◌<◌, ◌^◌, ◌≡◌, ◌≤◌};
ghost use Rattle.argus_values.specs.{Change.plain_change, Content.plain_content, Value.plain_value};
ghost use Rattle.argus_values.specs.Fault.{IsContentText, IsValueText};
ghost use Rattle.argus_values.specs.ContentSpelling.{PartsWithin, content_spelling};
ghost use Rattle.argus_values.specs.Spelling.{Within, spelling};
ghost use Rattle.argus_values.specs.contents_declared.limits.TheConstants.{MAX_VALUE_DEPTH};
ghost use Rattle.argus_embed.specs.Requests.{HasNumbers, IsNoPart, IsRead, IsUnread, LacksPart};
ghost use Rattle.argus_embed.specs.Requests.{Says, SaysChange, SaysQuery, TakesPart, TakesValue};
ghost use Rattle.argus_embed.specs.declared.embed_error.EmbedError.TheVariants as error;
ghost use Rattle.argus_embed.specs.declared.kinds.TheConstants as kinds;
ghost use Rattle.argus_journal.specs.Call.{plain_call};
ghost use Rattle.argus_entries.specs.Laws.{ChangeWithin, QueryWithin};
ghost use Rattle.argus_guardian.specs.Calls.{IsReadableCall};

use crate::embed_error::EmbedError;
use crate::kinds::{
    ABORT, ABORT_OTHERS, ADDH, ADDH_BOOL, ADDH_INT, ADDL, ADDL_BOOL, ADDL_INT, BEGIN_NESTED,
    BEGIN_SUB, BEGIN_TOP, BOTTOM, CHANGE_TAG, CHANGE_TAG_BOOL, CHANGE_TAG_INT, COMMIT, CREATE,
    DECLARE, FETCH, FIELD, HIGH, IS_TAG, LOW, REMH, REML, SET_FIELD, SET_FIELD_BOOL, SET_FIELD_INT,
    SET_LOW, SIZE, STORE, STORE_BOOL, STORE_INT, TAG_VALUE, TEST_READ, TEST_WRITE, TOP, TOUCH,
    TRIM, WHOLE,
};
use crate::request::Request;
use argus_actions::ActionId;
use argus_journal::Call;
use argus_values::{
    Change, Content, Heap, ObjId, Query, ReadError, Value, read_content, read_shape, read_value,
};

/// The call that the request with its text stands for. It has a line that can be read.
pub(crate) fn call_of(heap: Heap, request: &Request, text: &str) -> Result<Call, EmbedError>
    ensures says { IfOk result (λ call. Says request.now text.now (plain_call call)) }
    ensures readable { IfOk result (λ call. IsReadableCall (plain_call call)) }
    ensures read { OnOk result (IsRead request.now text.now) }
    ensures unread { IfErr result (λ e. IsUnread request.now text.now e) }
{
    let (a, o) = ids_of(request.action, request.object);
    match request.kind {
        DECLARE => match read_shape(heap, text)? {
            Some(shape) => Ok(Call::Declare(shape)),
            None => Err(EmbedError::BadShape),
        },
        BEGIN_TOP => Ok(Call::BeginTop),
        BEGIN_SUB => Ok(Call::BeginSub(a)),
        BEGIN_NESTED => Ok(Call::BeginNested(a)),
        COMMIT => Ok(Call::Commit(a)),
        ABORT => Ok(Call::Abort(a)),
        ABORT_OTHERS => Ok(Call::AbortOthers(a)),
        TEST_READ => Ok(Call::TestRead(a, o)),
        TEST_WRITE => Ok(Call::TestWrite(a, o)),
        WHOLE..=TAG_VALUE => Ok(Call::Ask(a, o, query_of(request)?)),
        _ => Ok(Call::Alter(a, o, change_of(heap, request, text)?)),
    }
}

/// The action and the object with these numbers, which are within 32 bits.
fn ids_of(action: u32, object: u32) -> (ActionId, ObjId)
    ensures action { (result.0.0 ≡ action) × (result.0.0 < 2 ^ 32) }
    ensures object { (result.1.0 ≡ object) × (result.1.0 < 2 ^ 32) }
{
    (ActionId(action), ObjId(object))
}

fn query_of(request: &Request) -> Result<Query, EmbedError>
    requires { (kinds.WHOLE ≤ request.now.kind) × (request.now.kind < kinds.CREATE) }
    ensures says { IfOk result (λ query. SaysQuery request.now.kind request.now.first query) }
    ensures within { IfOk result (λ query. QueryWithin query) }
    ensures numbers { OnOk result (HasNumbers request.now) }
    ensures unread { IfErr result (λ e. (e ≡ error.BadNumber) × LacksPart request.now) }
{
    match request.kind {
        WHOLE => Ok(Query::Whole),
        FIELD => Ok(Query::Field(part_of(request)?)),
        LOW => Ok(Query::Low),
        HIGH => Ok(Query::High),
        SIZE => Ok(Query::Size),
        FETCH => Ok(Query::Fetch(request.first)),
        BOTTOM => Ok(Query::Bottom),
        TOP => Ok(Query::Top),
        IS_TAG => Ok(Query::IsTag(part_of(request)?)),
        _ => Ok(Query::TagValue(part_of(request)?)),
    }
}

fn change_of(heap: Heap, request: &Request, text: &str) -> Result<Change, EmbedError>
    requires { kinds.CREATE ≤ request.now.kind }
    ensures says { IfOk result (λ change. SaysChange request.now.kind request.now.first
        request.now.second text.now (plain_change change)) }
    ensures within { IfOk result (λ change. ChangeWithin MAX_VALUE_DEPTH (plain_change change)) }
    ensures read { OnOk result (IsRead request.now text.now) }
    ensures unread { IfErr result (λ e. IsUnread request.now text.now e) }
{
    match request.kind {
        CREATE => Ok(Change::create(heap, content_of(heap, request, text)?)?),
        SET_FIELD => {
            let field = part_of(request)?;
            Ok(Change::SetField(field, value_of(heap, request, text)?))
        }
        STORE => Ok(Change::Store(request.first, value_of(heap, request, text)?)),
        ADDH => Ok(Change::Addh(value_of(heap, request, text)?)),
        ADDL => Ok(Change::Addl(value_of(heap, request, text)?)),
        REMH => Ok(Change::Remh),
        REML => Ok(Change::Reml),
        SET_LOW => Ok(Change::SetLow(request.first)),
        TRIM => Ok(Change::Trim(request.first, request.second)),
        CHANGE_TAG => {
            let tag = part_of(request)?;
            Ok(Change::ChangeTag(tag, value_of(heap, request, text)?))
        }
        TOUCH => Ok(Change::Touch),
        _ => change_by_number(request),
    }
}

/// The change whose value is a number of the request, which takes no memory.
fn change_by_number(request: &Request) -> Result<Change, EmbedError>
    requires { kinds.TOUCH < request.now.kind }
    ensures says { (text : List ℕ) → IfOk result (λ change. SaysChange request.now.kind
        request.now.first request.now.second text (plain_change change)) }
    ensures within { IfOk result (λ change. ChangeWithin MAX_VALUE_DEPTH (plain_change change)) }
    ensures numbers { OnOk result (HasNumbers request.now) }
    ensures unread { IfErr result (λ e. (text : List ℕ) → IsUnread request.now text e) }
{
    let number = request.second;
    let truth = number != 0;
    match request.kind {
        SET_FIELD_INT => Ok(Change::SetField(part_of(request)?, Value::Int(number))),
        STORE_INT => Ok(Change::Store(request.first, Value::Int(number))),
        ADDH_INT => Ok(Change::Addh(Value::Int(number))),
        ADDL_INT => Ok(Change::Addl(Value::Int(number))),
        CHANGE_TAG_INT => Ok(Change::ChangeTag(part_of(request)?, Value::Int(number))),
        SET_FIELD_BOOL => Ok(Change::SetField(part_of(request)?, Value::Bool(truth))),
        STORE_BOOL => Ok(Change::Store(request.first, Value::Bool(truth))),
        ADDH_BOOL => Ok(Change::Addh(Value::Bool(truth))),
        ADDL_BOOL => Ok(Change::Addl(Value::Bool(truth))),
        CHANGE_TAG_BOOL => Ok(Change::ChangeTag(part_of(request)?, Value::Bool(truth))),
        _ => Err(EmbedError::BadKind),
    }
}

/// The number of a field or a tag.
fn part_of(request: &Request) -> Result<u8, EmbedError>
    requires { TakesPart request.now.kind }
    ensures part { IfOk result (λ part. request.now.first ≡ pos part) }
    ensures ok { OnOk result (IsNoPart request.now.first → ⊥) }
    ensures unread { IfErr result (λ e. (e ≡ error.BadNumber) × LacksPart request.now) }
{
    let number = request.first;
    if number < 0 || 255 < number {
        return Err(EmbedError::BadNumber);
    }
    Ok(number as u8)
}

fn value_of(heap: Heap, request: &Request, text: &str) -> Result<Value, EmbedError>
    requires kind { TakesValue request.now.kind }
    requires part { LacksPart request.now → ⊥ }
    ensures says { IfOk result (λ value. text.now ≡ spelling (plain_value value)) }
    ensures within { IfOk result (λ value. Within MAX_VALUE_DEPTH (plain_value value)) }
    ensures read { OnOk result (IsValueText text.now) }
    ensures unread { IfErr result (λ e. IsUnread request.now text.now e) }
{
    match read_value(heap, text) {
        Ok(value) => Ok(value),
        Err(ReadError::Fault(fault)) => Err(EmbedError::BadText(fault.at)),
        Err(ReadError::Memory) => Err(EmbedError::OutOfMemory),
    }
}

fn content_of(heap: Heap, request: &Request, text: &str) -> Result<Content, EmbedError>
    requires { request.now.kind ≡ kinds.CREATE }
    ensures says { IfOk result (λ content. text.now ≡ content_spelling (plain_content content)) }
    ensures within { IfOk result (λ content. PartsWithin MAX_VALUE_DEPTH (plain_content content)) }
    ensures read { OnOk result (IsContentText text.now) }
    ensures unread { IfErr result (λ e. IsUnread request.now text.now e) }
{
    match read_content(heap, text) {
        Ok(content) => Ok(content),
        Err(ReadError::Fault(fault)) => Err(EmbedError::BadText(fault.at)),
        Err(ReadError::Memory) => Err(EmbedError::OutOfMemory),
    }
}
