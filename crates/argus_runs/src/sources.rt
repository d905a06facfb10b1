//! A whole run, in which script and heap are known only by what they return.
//!
//! The borrow checker accepts no call that puts a type of several lifetimes, such as a guardian
//! with a writer, for a type parameter, if the callee's signature names a type that holds a heap.
//! So here script and heap are type parameters, too.

ghost use Rattle.std.specs.Prelude.{List, OnOk, true, ◌≡◌};
ghost use Rattle.argus_language.specs.Script.{PlainScript, plain_script};
ghost use Rattle.argus_contents.specs.declared.obj_id.ObjId.{ObjId};
ghost use Rattle.argus_runs.specs.{RunOutcome.finished, Running.run_script, RunPrefix.StopsEarly};

use crate::caller::Caller;
use crate::running::run_script;
use crate::stopped::Stopped;
use argus_language::Script;
use argus_memory::Heap;

// What returns a script.
pub(crate) trait GivesScript {
    ghost script: { Self → PlainScript };

    fn script(&self) -> &Script
        ensures { plain_script result.now ≡ script self.now };
}

impl GivesScript for Script {
    ghost use Rattle.argus_language.specs.Script.{plain_script};

    ghost script = { plain_script };

    fn script(&self) -> &Script {
        self
    }
}

// What returns a heap.
pub(crate) trait GivesHeap {
    fn heap(&self) -> Heap;
}

impl GivesHeap for Heap {
    fn heap(&self) -> Heap {
        *self
    }
}

// Runs the script in the heap.
pub(crate) fn run_from_sources<C: Caller, S: GivesScript, H: GivesHeap>(
    caller: &mut C,
    script: &S,
    heap: &H,
) -> Result<(), Stopped>
    requires ready { C.ready caller.old }
    ensures ready { C.ready caller.new }
    ensures kept { C.preserved caller.old caller.new }
    ensures told { OnOk result (C.is_determined ≡ true → (numbers : List ObjId)
        × (run_script C.State C.reply C.arm_runner (S.script script.now) (C.state caller.old)
        ≡ finished numbers (C.state caller.new))) }
    ensures early { StopsEarly C.is_determined C.calls_extend C.is_prefix result
        (run_script C.State C.reply C.arm_runner (S.script script.now) (C.state caller.old))
        (C.state caller.new) }
{
    match run_script(heap.heap(), caller, script.script()) {
        Ok(_numbers) => Ok(()),
        Err(stopped) => Err(stopped),
    }
}
