//! `Client`: makes calls, and uses their replies.

use crate::bench_error::BenchError;
use crate::callee::Callee;
use crate::reply_summary::ReplySummary;
use argus_actions::ActionId;
use argus_journal::Call;
use argus_values::{Change, Heap, ObjId, Query, Value, read_content, read_shape};

/// A guardian, or a seat of a shared one, which is called by values of `Call`. A reply of another
/// kind than the call asks for is an error.
///
/// The calls are inlined, as they would be in a program of their own, where their kinds are known.
///
/// ```text
/// let mut client = Client::of(heap, Guardian::new(heap));
/// client.declare_record(ObjId(0))?;
/// let a = client.begin_top()?;
/// client.set(a, ObjId(0), 7)?;
/// client.commit(a)?;
/// ```
#[derive(Drop)]
pub(crate) struct Client<K: Callee> {
    pub(crate) heap: Heap,
    pub(crate) callee: K,
}

impl<K: Callee> Client<K> {
    pub(crate) fn of(heap: Heap, callee: K) -> Client<K> {
        Client { heap, callee }
    }

    #[inline(always)]
    pub(crate) fn begin_top(&mut self) -> Result<ActionId, BenchError> {
        self.begin(Call::BeginTop)
    }

    #[inline(always)]
    pub(crate) fn begin_sub(&mut self, parent: ActionId) -> Result<ActionId, BenchError> {
        self.begin(Call::BeginSub(parent))
    }

    #[inline(always)]
    fn begin(&mut self, call: Call) -> Result<ActionId, BenchError> {
        let ReplySummary::Begun(a) = self.callee.answer(call, false)? else {
            return Err(BenchError::OtherReply);
        };
        Ok(a)
    }

    #[inline(always)]
    pub(crate) fn commit(&mut self, a: ActionId) -> Result<(), BenchError> {
        self.have_done(Call::Commit(a))
    }

    #[inline(always)]
    pub(crate) fn abort(&mut self, a: ActionId) -> Result<(), BenchError> {
        self.have_done(Call::Abort(a))
    }

    /// Locks the object for a change, when no action of another thread is in the way.
    pub(crate) fn lock(&mut self, a: ActionId, o: ObjId) -> Result<(), BenchError> {
        self.callee
            .answer(Call::Alter(a, o, Change::Touch), true)?
            .expect_done()
    }

    /// Sets the integer of a record.
    #[inline(always)]
    pub(crate) fn set(&mut self, a: ActionId, o: ObjId, number: i64) -> Result<(), BenchError> {
        self.have_done(Call::Alter(a, o, Change::SetField(0, Value::Int(number))))
    }

    #[inline(always)]
    fn have_done(&mut self, call: Call) -> Result<(), BenchError> {
        self.callee.answer(call, false)?.expect_done()
    }

    /// The integer of a record.
    #[inline(always)]
    pub(crate) fn get(&mut self, a: ActionId, o: ObjId) -> Result<i64, BenchError> {
        match self.callee.answer(Call::Ask(a, o, Query::Field(0)), false)? {
            ReplySummary::Number(number) => Ok(number),
            _ => Err(BenchError::OtherReply),
        }
    }

    /// Declares a record of one integer, the next object, which a topaction of its own creates as 0.
    pub(crate) fn declare_record(&mut self, o: ObjId) -> Result<(), BenchError> {
        self.callee.answer(declare_call(self.heap)?, false)?;
        let a = self.begin_top()?;
        self.have_done(create_call(self.heap, a, o)?)?;
        self.commit(a)
    }
}

fn declare_call(heap: Heap) -> Result<Call, BenchError> {
    match read_shape(heap, "atomic_record[n:int]")? {
        Some(shape) => Ok(Call::Declare(shape)),
        None => Err(BenchError::OtherReply),
    }
}

fn create_call(heap: Heap, a: ActionId, o: ObjId) -> Result<Call, BenchError> {
    match read_content(heap, "{0}") {
        Ok(zero) => Ok(Call::Alter(a, o, Change::create(heap, zero)?)),
        Err(_) => Err(BenchError::OutOfMemory),
    }
}
