//! `Caller`: what makes the calls of a run.

ghost use Rattle.std.specs.Prelude.{Bool, IfOk, List, None, OnErr, Option, cond, length, true, ⊤};
ghost use Rattle.std.specs.Prelude.{◌≡◌};
ghost use Rattle.argus_actions.specs.declared.action_id.ActionId.{ActionId};
ghost use Rattle.argus_language.specs.PlainStep.{PlainSteps, plain_steps};
ghost use Rattle.argus_contents.specs.{Change.plain_change, declared.obj_id.ObjId.ObjId};
ghost use Rattle.argus_entries.specs.Call.{PlainCall, alter, plain_call};
ghost use Rattle.argus_entries.specs.Reply.{PlainReply, plain_reply};
ghost use Rattle.argus_runs.specs.RunOutcome.{Finishes, RunOutcome, finished};
ghost use Rattle.argus_runs.specs.Running.{access, run_arms, run_arms_by_runner};
ghost use Rattle.argus_runs.specs.{RunPrefix.{IsRunPrefix, StopsEarly}, declared.flow.Flow.Flow};
ghost use Rattle.argus_runs.specs.declared.flow.Flow.TheVariants.{On};

use crate::accessing::flow_of;
use crate::flow::Flow;
use crate::stopped::Stopped;
use argus_actions::ActionId;
use argus_contents::{Change, ObjId};
use argus_entries::{Call, Reply};
use argus_language::Step;
use argus_memory::Heap;

/// What makes the calls of a run, one after another: a guardian with a writer, a list of given
/// replies, a worker.
///
/// This is all that a run needs, so one runner serves them all. What a run comes to is defined over
/// the caller's `state` and over `reply`, which says what a call comes to in a state.
///
/// ```text
/// let flow = run_steps(heap, &mut caller, numbers, steps, Some(action))?;
/// ```
pub trait Caller {
    /// What determines the replies: a journal, or the replies that are still to come.
    ghost State: { Type 0 };

    ghost state: { Self → State };

    /// What a call comes to.
    ghost reply: { PlainCall → State → RunOutcome State PlainReply };

    /// What the arms of a coenter come to, if they aren't run one after another.
    ghost arm_runner: { Option (List ObjId → PlainSteps → List (Option ActionId) → State
        → RunOutcome State Flow) };

    /// The condition for calling it.
    ghost ready: { Self → Type 0 } = { λ _. ⊤ };

    /// What every call keeps, whatever its outcome.
    ghost preserved: { Self → Self → Type 0 };

    /// Whether the state alone determines a reply.
    ghost is_determined: { Bool };

    /// That a state is a prefix of another.
    ghost is_prefix: { State → State → Type 0 };

    /// Whether each call adds to the state, also one that stops after its reply.
    ghost calls_extend: { Bool };

    /// Makes a call. `Stopped`: the caller couldn't make it, or can't go on after it.
    fn call(&mut self, call: Call) -> Result<Reply, Stopped>
        requires { ready self.old }
        ensures ready { ready self.new }
        ensures kept { preserved self.old self.new }
        ensures told { IfOk result (λ r. is_determined ≡ true → reply (plain_call call)
            (state self.old)
            ≡ finished (plain_reply r) (state self.new)) }
        ensures early { OnErr result (calls_extend ≡ true
            → IsRunPrefix is_prefix (state self.new) (reply (plain_call call) (state self.old))) };

    /// Makes an access, and returns how its block goes on. It is `call` for a run that needs to
    /// know only whether the access was refused. So a caller that keeps the reply needn't copy it,
    /// and one that waits for locks waits here. `Stopped`: as in `call`.
    fn access(&mut self, call: Call) -> Result<Flow, Stopped>
        requires ready { ready self.old }
        ensures ready { ready self.new }
        ensures kept { preserved self.old self.new }
        ensures told { Finishes is_determined result (λ f. f) (access State reply arm_runner
            (plain_call call) (state self.old)) (state self.new) }
        ensures early { StopsEarly is_determined calls_extend is_prefix result
            (access State reply arm_runner (plain_call call) (state self.old)) (state self.new) }
    {
        let reply = self.call(call)?;
        Ok(flow_of(&reply))
    }

    /// Makes the access that is this change of the object. It is `access` of the call, for a caller
    /// that makes the call where it records it. `Stopped`: as in `call`.
    fn alter(&mut self, action: ActionId, object: ObjId, change: Change) -> Result<Flow, Stopped>
        requires ready { ready self.old }
        ensures ready { ready self.new }
        ensures kept { preserved self.old self.new }
        ensures told { Finishes is_determined result (λ f. f) (access State reply arm_runner
            (alter action.0 object.0 (plain_change change)) (state self.old)) (state self.new) }
        ensures early { StopsEarly is_determined calls_extend is_prefix result
            (access State reply arm_runner (alter action.0 object.0 (plain_change change))
            (state self.old)) (state self.new) }
    {
        self.access(Call::Alter(action, object, change))
    }

    /// Runs the arms of a coenter if it has a way of its own, otherwise returns false. `begun` has
    /// the action of each arm that was begun. `Stopped`: the caller can't go on.
    fn arms(
        &mut self,
        heap: Heap,
        numbers: &[ObjId],
        arms: &[Step],
        begun: &[Option<ActionId>],
    ) -> Result<bool, Stopped>
        requires len { length begun.now ≡ length arms.now }
        requires ready { ready self.old }
        ensures ready { ready self.new }
        ensures kept { preserved self.old self.new }
        ensures told { IfOk result (λ did. is_determined ≡ true →
            run_arms_by_runner State reply arm_runner numbers.now (plain_steps arms.now) begun.now
            (state self.old) ≡ cond did (finished On (state self.new))
            (run_arms State reply arm_runner numbers.now (plain_steps arms.now) begun.now
            (state self.new))) }
        ensures early { OnErr result (calls_extend ≡ true → state self.new ≡ state self.old) };

    ghost no_arm_runner: { calls_extend ≡ true → arm_runner ≡ None };

    ghost prefix_refl: { calls_extend ≡ true → (s : State) → is_prefix s s };

    ghost prefix_trans: { calls_extend ≡ true → (s t u : State) → is_prefix s t → is_prefix t u
        → is_prefix s u };

    ghost call_extends: { calls_extend ≡ true → (call : PlainCall) (s : State)
        → IsRunPrefix is_prefix s (reply call s) };

    ghost preserved_refl: { (x : Self) → preserved x x };

    ghost preserved_trans: { (x y z : Self) → preserved x y → preserved y z → preserved x z };
}
