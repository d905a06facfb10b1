//! The step that an access is.

ghost use Rattle.std.specs.Prelude.{◌≡◌, ℕ, List, [], ◌∷◌, IfOk, IfErr, OnOk};
ghost use Rattle.argus_contents.specs.{Content.plain_content, Value.plain_value};
ghost use Rattle.argus_contents.specs.declared.limits.TheConstants.{MAX_VALUE_DEPTH};
ghost use Rattle.argus_texts.specs.ContentSpelling.{PartsWithin, content_spelling};
ghost use Rattle.argus_texts.specs.Fault.{IsContentText, IsValueText};
ghost use Rattle.argus_texts.specs.Spelling.{Within, spelling};
ghost use Rattle.argus_language.specs.Fault.{OperationTextFault, OperationTextIsFine};
ghost use Rattle.argus_language.specs.{Numbered.with_number, PlainStep.plain_step};
ghost use Rattle.argus_language.specs.Operation.{of_any, of_array, of_record, of_variant};
ghost use Rattle.argus_language.specs.{Reading.{OnKind, StandsInAction}, PlainLine.plain_operation};
ghost use Rattle.argus_language.specs.PlainLine.{plain_any, plain_array_operation};
ghost use Rattle.argus_language.specs.PlainLine.{plain_record_operation, plain_variant_operation};
ghost use Rattle.argus_language.specs.Spelled.{access, lines_of_part};

use crate::any_operation::AnyOperation;
use crate::array_operation::ArrayOperation;
use crate::fault_kind::FaultKind;
use crate::line_error::LineError;
use crate::operation::Operation;
use crate::record_operation::RecordOperation;
use crate::step::Step;
use crate::variant_operation::VariantOperation;
use argus_contents::{Change, Content, Query, Value};
use argus_memory::Heap;
use argus_texts::{ReadError, read_content, read_value};

/// The access to the object with this number, given the number of the operation's field or tag.
pub(crate) fn access_step(
    heap: Heap,
    object: u32,
    number: u8,
    operation: Operation<'_>,
) -> Result<Step, LineError>
    ensures fault { IfErr result
        (λ e. OnKind e (OperationTextFault (plain_operation operation.entry))) }
    ensures fine { OnOk result (OperationTextIsFine (plain_operation operation.entry)) }
    ensures line { IfOk result
        (λ s. lines_of_part (plain_step s)
        ≡ access object (with_number number (plain_operation operation.entry)) ∷ []) }
    ensures stands { IfOk result (λ s. StandsInAction (plain_step s)) }
{
    match operation {
        Operation::Any(operation) => any_step(heap, object, operation),
        Operation::Record(_, operation) => record_step(heap, object, number, operation),
        Operation::Array(operation) => array_step(heap, object, operation),
        Operation::Variant(_, operation) => variant_step(heap, object, number, operation),
    }
}

fn any_step(heap: Heap, object: u32, operation: AnyOperation<'_>) -> Result<Step, LineError>
    ensures fault { IfErr result
        (λ e. OnKind e (OperationTextFault (of_any (plain_any operation.entry)))) }
    ensures fine { OnOk result (OperationTextIsFine (of_any (plain_any operation.entry))) }
    ensures line { IfOk result
        (λ s. lines_of_part (plain_step s)
        ≡ access object (of_any (plain_any operation.entry)) ∷ []) }
    ensures stands { IfOk result (λ s. StandsInAction (plain_step s)) }
{
    match operation {
        AnyOperation::Create(text) => {
            let content = content_in(heap, text)?;
            Ok(Step::Alter(object, Change::create(heap, content)?))
        }
        AnyOperation::Read => Ok(Step::Ask(object, Query::Whole)),
        AnyOperation::Touch => Ok(Step::Alter(object, Change::Touch)),
    }
}

fn record_step(
    heap: Heap,
    object: u32,
    field: u8,
    operation: RecordOperation<'_>,
) -> Result<Step, LineError>
    ensures fault { (name : List ℕ) → IfErr result
        (λ e. OnKind e (OperationTextFault (of_record name
        (plain_record_operation operation.entry)))) }
    ensures fine { (name : List ℕ) → OnOk result
        (OperationTextIsFine (of_record name (plain_record_operation operation.entry))) }
    ensures line { IfOk result
        (λ s. lines_of_part (plain_step s)
        ≡ access object (of_record field (plain_record_operation operation.entry)) ∷ []) }
    ensures stands { IfOk result (λ s. StandsInAction (plain_step s)) }
{
    match operation {
        RecordOperation::Get => Ok(Step::Ask(object, Query::Field(field))),
        RecordOperation::Set(text) => {
            let value = value_in(heap, text)?;
            Ok(Step::Alter(object, Change::SetField(field, value)))
        }
    }
}

fn array_step(heap: Heap, object: u32, operation: ArrayOperation<'_>) -> Result<Step, LineError>
    ensures fault { IfErr result
        (λ e. OnKind e (OperationTextFault (of_array (plain_array_operation operation.entry)))) }
    ensures fine { OnOk result (OperationTextIsFine (of_array
        (plain_array_operation operation.entry))) }
    ensures line { IfOk result
        (λ s. lines_of_part (plain_step s)
        ≡ access object (of_array (plain_array_operation operation.entry)) ∷ []) }
    ensures stands { IfOk result (λ s. StandsInAction (plain_step s)) }
{
    match operation {
        ArrayOperation::Low => Ok(Step::Ask(object, Query::Low)),
        ArrayOperation::High => Ok(Step::Ask(object, Query::High)),
        ArrayOperation::Size => Ok(Step::Ask(object, Query::Size)),
        ArrayOperation::Bottom => Ok(Step::Ask(object, Query::Bottom)),
        ArrayOperation::Top => Ok(Step::Ask(object, Query::Top)),
        ArrayOperation::Fetch(index) => Ok(Step::Ask(object, Query::Fetch(index))),
        ArrayOperation::Store(index, text) => {
            let value = value_in(heap, text)?;
            Ok(Step::Alter(object, Change::Store(index, value)))
        }
        ArrayOperation::Addh(text) => {
            let value = value_in(heap, text)?;
            Ok(Step::Alter(object, Change::Addh(value)))
        }
        ArrayOperation::Addl(text) => {
            let value = value_in(heap, text)?;
            Ok(Step::Alter(object, Change::Addl(value)))
        }
        ArrayOperation::Remh => Ok(Step::Alter(object, Change::Remh)),
        ArrayOperation::Reml => Ok(Step::Alter(object, Change::Reml)),
        ArrayOperation::SetLow(bound) => Ok(Step::Alter(object, Change::SetLow(bound))),
        ArrayOperation::Trim(from, count) => Ok(Step::Alter(object, Change::Trim(from, count))),
    }
}

fn variant_step(
    heap: Heap,
    object: u32,
    tag: u8,
    operation: VariantOperation<'_>,
) -> Result<Step, LineError>
    ensures fault { (name : List ℕ) → IfErr result
        (λ e. OnKind e (OperationTextFault (of_variant name
        (plain_variant_operation operation.entry)))) }
    ensures fine { (name : List ℕ) → OnOk result
        (OperationTextIsFine (of_variant name (plain_variant_operation operation.entry))) }
    ensures line { IfOk result
        (λ s. lines_of_part (plain_step s)
        ≡ access object (of_variant tag (plain_variant_operation operation.entry)) ∷ []) }
    ensures stands { IfOk result (λ s. StandsInAction (plain_step s)) }
{
    match operation {
        VariantOperation::IsTag => Ok(Step::Ask(object, Query::IsTag(tag))),
        VariantOperation::TagValue => Ok(Step::Ask(object, Query::TagValue(tag))),
        VariantOperation::ChangeTag(text) => {
            let value = value_in(heap, text)?;
            Ok(Step::Alter(object, Change::ChangeTag(tag, value)))
        }
    }
}

fn value_in(heap: Heap, text: &str) -> Result<Value, LineError>
    ensures fault { IfErr result
        (λ e. OnKind e (λ k. (k ≡ FaultKind.BadValue) × (IsValueText text.now → ⊥))) }
    ensures within { IfOk result (λ v. Within MAX_VALUE_DEPTH (plain_value v)) }
    ensures form { IfOk result (λ v. text.now ≡ spelling (plain_value v)) }
    ensures fine { OnOk result (IsValueText text.now) }
{
    match read_value(heap, text) {
        Ok(value) => Ok(value),
        Err(ReadError::Fault(_)) => Err(LineError::Fault(FaultKind::BadValue)),
        Err(ReadError::Memory) => Err(LineError::OutOfMemory),
    }
}

fn content_in(heap: Heap, text: &str) -> Result<Content, LineError>
    ensures fault { IfErr result
        (λ e. OnKind e (λ k. (k ≡ FaultKind.BadValue) × (IsContentText text.now → ⊥))) }
    ensures within { IfOk result (λ c. PartsWithin MAX_VALUE_DEPTH (plain_content c)) }
    ensures form { IfOk result (λ c. text.now ≡ content_spelling (plain_content c)) }
    ensures fine { OnOk result (IsContentText text.now) }
{
    match read_content(heap, text) {
        Ok(content) => Ok(content),
        Err(ReadError::Fault(_)) => Err(LineError::Fault(FaultKind::BadValue)),
        Err(ReadError::Memory) => Err(LineError::OutOfMemory),
    }
}
