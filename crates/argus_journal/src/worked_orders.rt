//! Journals worked out: which refusal comes first if several apply, which locks a single query and
//! a single test take, and calls at the limits. Objects 0 and 1 are as in `worked`.
ghost use Rattle.std.specs.Prelude.{◌≡◌, ◌-◌, ◌∷◌, ◌++◌, [], Some, length, pos, true};
ghost use Rattle.argus_contents.specs.{Answer.{done, flag, signal, val}, Shape.PlainShape};
ghost use Rattle.argus_contents.specs.{Value.int, declared.limits.TheConstants.MAX_OBJECTS};
ghost use Rattle.argus_contents.specs.declared.limits.TheConstants.{MAX_ACTIONS, MAX_ACTION_DEPTH};
ghost use Rattle.argus_contents.specs.{declared.signal.Signal.TheVariants.Absent, Change.create};
ghost use Rattle.argus_contents.specs.declared.query.Query.TheVariants.{Field};
ghost use Rattle.argus_entries.specs.Call.{alter, ask, declare};
ghost use Rattle.argus_entries.specs.Reply.{answered, begun, object, refused};
ghost use Rattle.argus_entries.specs.declared.refusal.Refusal.TheVariants.{Conflict, IllTyped};
ghost use Rattle.argus_entries.specs.declared.refusal.Refusal.TheVariants.{NoAction, NoObject};
ghost use Rattle.argus_entries.specs.declared.refusal.Refusal.TheVariants.{Over, Suspended};
ghost use Rattle.argus_entries.specs.declared.refusal.Refusal.TheVariants.{TooDeep, TooMany};
ghost use Rattle.argus_journal.specs.JournalFacts.{effects_of, readers_of, versions_of};
ghost use Rattle.argus_journal.specs.{Opening.{Opening, empty}, WorkedOrders.under_the_deepest};
ghost use Rattle.argus_journal.specs.Worked.{calls_run, calls_run_to, holding, journal, prepared};
ghost use Rattle.argus_journal.specs.Worked.{replies, set_to, then_calls};
ghost use Rattle.argus_journal.specs.WorkedOrders.{a_live_subaction, a_reader};
ghost use Rattle.argus_journal.specs.WorkedOrders.{a_signalled_question, a_test_below_a_write};
ghost use Rattle.argus_journal.specs.WorkedOrders.{going_on_at, ill_typed_and_held};
ghost use Rattle.argus_journal.specs.WorkedOrders.{over_and_suspended, suspended_and_undeclared};
ghost use Rattle.argus_journal.specs.WorkedOrders.{tests_in_order, the_last_action, the_last_chain};

/// A change that doesn't suit the object's shape is refused for that, whoever holds the object; so
/// is a query for another kind of object.
pub fn ill_typed_before_conflict()
    ensures { replies empty (journal prepared) ill_typed_and_held
        ≡ begun 1 ∷ answered done ∷ begun 2 ∷ refused IllTyped ∷ refused IllTyped ∷ refused Conflict
        ∷ [] }
{}

/// An action that was aborted is over, though its nested topaction lives.
pub fn over_before_suspended()
    ensures { replies empty (journal prepared) over_and_suspended
        ≡ begun 1 ∷ begun 2 ∷ answered done ∷ refused Over ∷ refused Over ∷ refused Over ∷ [] }
{}

/// A suspended action is refused before its object is looked up; it may begin another child.
pub fn suspended_before_no_object()
    ensures { replies empty (journal prepared) suspended_and_undeclared
        ≡ begun 1 ∷ begun 2 ∷ refused Suspended ∷ refused Suspended ∷ refused Suspended
        ∷ refused Suspended ∷ begun 3 ∷ [] }
{}

/// Tests are refused in the same order.
pub fn tests_are_refused_in_order()
    ensures { replies empty (journal prepared) tests_in_order
        ≡ begun 1 ∷ answered done ∷ refused Over ∷ refused Over ∷ refused NoAction
        ∷ refused NoAction
        ∷ begun 2 ∷ refused NoObject ∷ refused NoObject ∷ [] }
{}

/// A query that returned a signal holds its read lock.
pub fn a_signalled_question_reads()
    ensures replies { replies empty (journal prepared) a_signalled_question
        ≡ object 2 ∷ begun 1 ∷ answered (signal Absent) ∷ begun 2 ∷ refused Conflict ∷ [] }
    ensures reader { readers_of empty (journal (prepared ++ a_signalled_question)) 2 ≡ 1 ∷ [] }
{}

/// A test for writing that says yes makes a version with what its action sees.
pub fn a_test_copies_what_an_ancestor_wrote()
    ensures replies { replies empty (journal prepared) a_test_below_a_write
        ≡ begun 1 ∷ answered done ∷ begun 2 ∷ answered (flag true) ∷ [] }
    ensures versions { versions_of empty (journal (prepared ++ a_test_below_a_write)) 0
        ≡ (1, Some (holding 1)) ∷ (2, Some (holding 1)) ∷ [] }
{}

/// A topaction that only reads has an effect, the empty one.
pub fn a_reader_leaves_an_empty_effect()
    ensures replies { replies empty (journal prepared) a_reader
        ≡ begun 1 ∷ answered (val (int (pos 0))) ∷ answered done ∷ [] }
    ensures effects { effects_of empty (journal (prepared ++ a_reader))
        ≡ ((0, Some (holding 0)) ∷ (1, Some (holding 0)) ∷ []) ∷ [] ∷ [] }
{}

/// The serial run up to a live action begins with the committed topactions, so it has what the
/// nested topaction did before what its creator did earlier. What an aborted subaction did isn't in
/// it.
pub fn a_run_goes_up_to_a_live_action()
    ensures replies { replies empty (journal prepared) a_live_subaction
        ≡ begun 1 ∷ answered done ∷ begun 2 ∷ answered done ∷ answered done ∷ begun 3
        ∷ answered (val (int (pos 2))) ∷ answered done ∷ begun 4 ∷ answered done ∷ answered done
        ∷ [] }
    ensures committed { calls_run (journal (prepared ++ a_live_subaction))
        ≡ alter 2 1 (set_to 2) ∷ alter 0 1 (create (holding 0)) ∷ alter 0 0 (create (holding 0))
        ∷ [] }
    ensures to_parent { calls_run_to (journal (prepared ++ a_live_subaction)) 1
        ≡ alter 1 0 (set_to 1) ∷ alter 2 1 (set_to 2) ∷ alter 0 1 (create (holding 0))
        ∷ alter 0 0 (create (holding 0)) ∷ [] }
    ensures to_subaction { calls_run_to (journal (prepared ++ a_live_subaction)) 3
        ≡ alter 3 0 (set_to 3) ∷ ask 3 1 (Field 0) ∷ alter 1 0 (set_to 1) ∷ alter 2 1 (set_to 2)
        ∷ alter 0 1 (create (holding 0)) ∷ alter 0 0 (create (holding 0)) ∷ [] }
{}

/// The last action that the limit allows begins, and no other. One that is over or hasn't begun is
/// refused for that, and one that is too deep for that.
pub fn the_last_action_begins()
    ensures last { replies (going_on_at (MAX_ACTIONS - 1)) [] the_last_action
        ≡ begun (MAX_ACTIONS - 1) ∷ answered done ∷ refused Over ∷ refused Over
        ∷ refused NoAction ∷ refused NoAction ∷ refused TooMany ∷ [] }
    ensures deepest { let s = going_on_at (MAX_ACTIONS - MAX_ACTION_DEPTH) in
        replies s (then_calls s [] the_last_chain) under_the_deepest
        ≡ refused TooDeep ∷ refused TooMany ∷ [] }
{}

/// The last object that the limit allows is declared, and no other.
pub fn the_last_object_is_declared()
    ensures { (s : Opening) (shape : PlainShape) → length s.objects ≡ MAX_OBJECTS - 1
        → replies s [] (declare shape ∷ declare shape ∷ [])
        ≡ object (MAX_OBJECTS - 1) ∷ refused TooMany ∷ [] }
{}
