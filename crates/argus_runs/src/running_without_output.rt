//! A guardian makes the calls of a run, and nothing is written.

ghost use Rattle.std.specs.Prelude.{OnErr, OnOk};
ghost use Rattle.argus_language.specs.Script.{plain_script};
ghost use Rattle.argus_runs.specs.{Played.{IsPlay, play}, RunPrefix.{IsJournalPrefix, IsRunPrefix}};

use crate::accessing::flow_of;
use crate::caller::Caller;
use crate::flow::Flow;
use crate::running::run_script;
use crate::stopped::Stopped;
use argus_actions::ActionId;
use argus_contents::{Change, ObjId};
use argus_core::Guardian;
use argus_entries::{Call, Reply};
use argus_language::{Script, Step};
use argus_memory::{Heap, OutOfMemory};

impl Caller for Guardian {
    ghost use Rattle.std.specs.Prelude.{None, refl, true};
    ghost use Rattle.argus_journal.specs.JournalView.{JournalView};
    ghost use Rattle.argus_runs.specs.Adding.{asked_grows, prefix_refl, prefix_trans};
    ghost use Rattle.argus_runs.specs.Played.{reply_from_journal};
    ghost use Rattle.argus_runs.specs.RunPrefix.{IsJournalPrefix};

    ghost State = { JournalView };

    ghost state = { λ g. g };

    ghost reply = { reply_from_journal };

    ghost arm_runner = { None };

    ghost preserved = { λ old new. IsJournalPrefix old new };

    ghost is_determined = { true };

    ghost is_prefix = { IsJournalPrefix };

    ghost calls_extend = { true };

    ghost no_arm_runner = { λ _. refl };

    ghost prefix_refl = { λ _. prefix_refl };

    ghost prefix_trans = { λ _. prefix_trans };

    ghost call_extends = { λ _. asked_grows };

    ghost preserved_refl = { λ g. prefix_refl g };

    ghost preserved_trans = { λ x y z p q. prefix_trans x y z p q };

    fn call(&mut self, call: Call) -> Result<Reply, Stopped> {
        match self.call(call) {
            Ok(reply) => Ok(reply),
            Err(_) => Err(Stopped),
        }
    }

    // The guardian makes the call where it records it.
    fn alter(&mut self, action: ActionId, object: ObjId, change: Change) -> Result<Flow, Stopped> {
        match self.alter(action, object, change) {
            Ok(reply) => Ok(flow_of(&reply)),
            Err(_) => Err(Stopped),
        }
    }

    fn arms(
        &mut self,
        _heap: Heap,
        _numbers: &[ObjId],
        _arms: &[Step],
        _begun: &[Option<ActionId>],
    ) -> Result<bool, Stopped> {
        Ok(false)
    }
}

/// Runs a script on the guardian as `run_serial` does, and writes nothing.
///
/// On `Ok` the journal is the one that the script's run leaves after the journal before (`played`);
/// at `OutOfMemory` it is a prefix of that one (`early`). Whatever comes, the journal before is a
/// prefix of it (`kept`): entries are only added.
///
/// ```text
/// let script = parse(heap, b"declare x atomic_record[n:int]\n")?;
/// let mut guardian = Guardian::new(heap);
/// run_without_output(heap, &mut guardian, &script)?;
/// assert_eq!(rt; guardian.objects(), 1);
/// ```
pub fn run_without_output(
    heap: Heap,
    guardian: &mut Guardian,
    script: &Script,
) -> Result<(), OutOfMemory>
    ensures played { OnOk result (IsPlay guardian.old (plain_script script.now) guardian.new) }
    ensures early { OnErr result (IsRunPrefix IsJournalPrefix guardian.new
        (play (plain_script script.now) guardian.old)) }
    ensures kept { IsJournalPrefix guardian.old guardian.new }
{
    match run_script(heap, guardian, script) {
        Ok(_numbers) => Ok(()),
        Err(_) => Err(OutOfMemory),
    }
}
