//! Journals worked out. Each has two records of a number, objects 0 and 1, which topaction 0 has
//! created with 0 in them.
ghost use Rattle.std.specs.Prelude.{◌≡◌, true, false, None, Some, [], ◌∷◌, ◌++◌, codes, map, pos};
ghost use Rattle.argus_contents.specs.{Answer.{body, done, flag, num, signal, val}, Change.create};
ghost use Rattle.argus_contents.specs.{Content.{arr, var}, Value.{atomic, choice, int, text}};
ghost use Rattle.argus_contents.specs.declared.query.Query.TheVariants.{Field};
ghost use Rattle.argus_contents.specs.declared.signal.Signal.TheVariants.{Bounds, WrongTag};
ghost use Rattle.argus_entries.specs.Call.{abort, alter, ask, begin_top, commit, test_read};
ghost use Rattle.argus_entries.specs.{Call.test_write, Reply.{answered, begun, object, refused}};
ghost use Rattle.argus_entries.specs.declared.refusal.Refusal.TheVariants.{Conflict, IllTyped};
ghost use Rattle.argus_entries.specs.declared.refusal.Refusal.TheVariants.{NoAction, NoObject};
ghost use Rattle.argus_entries.specs.declared.refusal.Refusal.TheVariants.{Over, Suspended};
ghost use Rattle.argus_entries.specs.declared.refusal.Refusal.TheVariants.{TooDeep, TooMany};
ghost use Rattle.argus_journal.specs.{declared.owner.Owner.TheVariants.{Base, Gone}, Opening.empty};
ghost use Rattle.argus_journal.specs.JournalFacts.{base_of, committed_in, effects_of, owner_in};
ghost use Rattle.argus_journal.specs.JournalFacts.{holders_inherited, readers_of, versions_of};
ghost use Rattle.argus_journal.specs.{JournalFacts.writers_of, References.references_in};
ghost use Rattle.argus_journal.specs.Worked.{chain, full, held, holding, journal, prepared};
ghost use Rattle.argus_journal.specs.Worked.{calls_run, replies, set_to, all_wait, nested_outlives};
ghost use Rattle.argus_journal.specs.Worked.{reference_waits, refused_in_turn, signal_ends};
ghost use Rattle.argus_journal.specs.Worked.{signal_holds, sub_turns, sub_writes, tag_changed};
ghost use Rattle.argus_journal.specs.Worked.{tag_changes, tag_refused, tests_no, turns, two_read};

/// A subaction's write is undone by its abort, and what its parent had written stays.
pub fn a_subaction_aborts()
    ensures begins { replies empty [] prepared
        ≡ object 0 ∷ object 1 ∷ begun 0 ∷ answered done ∷ answered done ∷ answered done ∷ [] }
    ensures replies { replies empty (journal prepared) sub_writes
        ≡ begun 1 ∷ answered done ∷ begun 2 ∷ answered done ∷ [] }
    ensures versions { versions_of empty (journal (prepared ++ sub_writes)) 0
        ≡ (1, Some (holding 1)) ∷ (2, Some (holding 2)) ∷ [] }
    ensures owners { map (owner_in empty (journal (prepared ++ sub_writes))) (0 ∷ 2 ∷ [])
        ≡ Some Base ∷ held 2 ∷ [] }
    ensures before { base_of empty (journal (prepared ++ sub_writes)) 0 ≡ Some (holding 0) }
    ensures then { let ends = abort 2 ∷ ask 1 0 (Field 0) ∷ commit 1 ∷ [] in
        replies empty (journal (prepared ++ sub_writes)) ends
        ≡ answered done ∷ answered (val (int (pos 1))) ∷ answered done ∷ [] }
    ensures base { let ends = abort 2 ∷ ask 1 0 (Field 0) ∷ commit 1 ∷ [] in
        base_of empty (journal (prepared ++ sub_writes ++ ends)) 0 ≡ Some (holding 1) }
{}

/// A subaction's commit hands its version to its parent, and goes with it when the parent is
/// aborted.
pub fn a_subaction_commits()
    ensures handed_up { versions_of empty (journal (prepared ++ sub_writes ++ commit 2 ∷ [])) 0
        ≡ (1, Some (holding 2)) ∷ [] }
    ensures owner { owner_in empty (journal (prepared ++ sub_writes ++ commit 2 ∷ [])) 2 ≡ held 1 }
    ensures over { let ends = commit 2 ∷ abort 1 ∷ commit 2 ∷ [] in
        replies empty (journal (prepared ++ sub_writes)) ends
        ≡ answered done ∷ answered done ∷ refused Over ∷ [] }
    ensures undone { let ends = commit 2 ∷ abort 1 ∷ [] in
        owner_in empty (journal (prepared ++ sub_writes ++ ends)) 2 ≡ Some Gone }
    ensures base { let ends = commit 2 ∷ abort 1 ∷ [] in
        base_of empty (journal (prepared ++ sub_writes ++ ends)) 0 ≡ Some (holding 0) }
    ensures free { let ends = commit 2 ∷ abort 1 ∷ [] in
        versions_of empty (journal (prepared ++ sub_writes ++ ends)) 0 ≡ [] }
{}

/// Two subactions read an object; one may write it after the other has committed, since then their
/// parent is the other reader.
pub fn readers_are_inherited()
    ensures replies { replies empty (journal prepared) two_read
        ≡ begun 1 ∷ begun 2 ∷ begun 3 ∷ answered (val (int (pos 0))) ∷ answered (val (int (pos 0)))
        ∷ refused Conflict ∷ answered done ∷ [] }
    ensures readers { readers_of empty (journal (prepared ++ two_read)) 0 ≡ 1 ∷ 2 ∷ [] }
    ensures then { answered done ∷ []
        ≡ replies empty (journal (prepared ++ two_read)) (alter 2 0 (set_to 1) ∷ []) }
    ensures versions { versions_of empty (journal
        (prepared ++ two_read ++ alter 2 0 (set_to 1) ∷ [])) 0
        ≡ (2, Some (holding 1)) ∷ [] }
{}

/// A nested topaction has no privilege from its creator, and its effect stays when that is aborted.
pub fn a_nested_topaction_outlives_its_creator()
    ensures replies { replies empty (journal prepared) nested_outlives
        ≡ begun 1 ∷ answered done ∷ begun 2 ∷ refused Conflict ∷ answered done ∷ answered done
        ∷ answered done ∷ [] }
    ensures bases { map (base_of empty (journal (prepared ++ nested_outlives))) (0 ∷ 1 ∷ [])
        ≡ Some (holding 0) ∷ Some (holding 8) ∷ [] }
{}

/// An action with a live child is suspended, and its abort ends the child, too.
pub fn refusals_come_in_order()
    ensures { replies empty (journal prepared) refused_in_turn
        ≡ begun 1 ∷ begun 2 ∷ refused Suspended ∷ refused Suspended ∷ answered done ∷ refused Over
        ∷ refused NoAction ∷ begun 3 ∷ refused NoObject ∷ [] }
{}

/// A signal is a reply: the call has its lock and keeps it.
pub fn a_signal_keeps_its_lock()
    ensures replies { replies empty (journal prepared) signal_holds
        ≡ object 2 ∷ begun 1 ∷ answered done ∷ answered done ∷ begun 2 ∷ answered (signal Bounds)
        ∷ [] }
    ensures versions { versions_of empty (journal (prepared ++ signal_holds)) 2
        ≡ (2, Some (arr (pos 1) [])) ∷ [] }
    ensures then { replies empty (journal (prepared ++ signal_holds)) signal_ends
        ≡ begun 3 ∷ refused Conflict ∷ answered done ∷ answered done ∷ answered (num (pos 1)) ∷ [] }
{}

/// A change that doesn't suit the object's shape is refused and takes no lock; a signal and a flag
/// that says no take theirs.
pub fn what_suits_no_shape_is_refused()
    ensures replies { replies empty (journal prepared) tag_changes
        ≡ object 2 ∷ begun 1 ∷ answered done ∷ answered (signal WrongTag) ∷ answered (flag false)
        ∷ [] }
    ensures reader { readers_of empty (journal (prepared ++ tag_changes)) 2 ≡ 1 ∷ [] }
    ensures refused { replies empty (journal (prepared ++ tag_changes)) tag_refused
        ≡ answered done ∷ begun 2 ∷ refused IllTyped ∷ [] }
    ensures no_lock { readers_of empty (journal (prepared ++ tag_changes ++ tag_refused)) 2
        ++ writers_of empty (journal (prepared ++ tag_changes ++ tag_refused)) 2 ≡ [] }
    ensures then { replies empty (journal (prepared ++ tag_changes ++ tag_refused)) tag_changed
        ≡ answered done ∷ answered (body (var 1 (text (codes "no")))) ∷ [] }
{}

/// A reference suits only after its object is declared.
pub fn a_reference_waits_for_its_object()
    ensures replies { replies empty (journal prepared) reference_waits
        ≡ object 2 ∷ begun 1 ∷ refused IllTyped ∷ object 3 ∷ answered done ∷ [] }
    ensures within_a_choice { references_in (Some (var 0 (choice 1 (atomic 3)))) ≡ 3 ∷ [] }
{}

/// A test that says yes takes its lock, and a test for writing makes a version; one that says no
/// takes none.
pub fn tests_take_locks()
    ensures no { replies empty (journal prepared) tests_no
        ≡ begun 1 ∷ begun 2 ∷ answered (val (int (pos 0))) ∷ answered (flag false) ∷ [] }
    ensures reader { readers_of empty (journal (prepared ++ tests_no)) 0 ≡ 1 ∷ [] }
    ensures none { versions_of empty (journal (prepared ++ tests_no)) 0 ≡ [] }
    ensures both { readers_of empty (journal (prepared ++ tests_no ++ test_read 2 0 ∷ [])) 0
        ≡ 1 ∷ 2 ∷ [] }
    ensures given_back { holders_inherited 1 None (1 ∷ 2 ∷ []) ≡ 2 ∷ [] }
    ensures reader_left { let ends = test_read 2 0 ∷ commit 1 ∷ [] in
        readers_of empty (journal (prepared ++ tests_no ++ ends)) 0 ≡ 2 ∷ [] }
    ensures then { let ends = test_read 2 0 ∷ commit 1 ∷ test_write 2 0 ∷ [] in
        replies empty (journal (prepared ++ tests_no)) ends
        ≡ answered (flag true) ∷ answered done ∷ answered (flag true) ∷ [] }
    ensures version { let ends = test_read 2 0 ∷ commit 1 ∷ test_write 2 0 ∷ [] in
        versions_of empty (journal (prepared ++ tests_no ++ ends)) 0 ≡ (2, Some (holding 0)) ∷ [] }
{}

/// Topactions count in the order of their commits: 1 began first, and commits last. So does the
/// work of subactions in that of their parent.
pub fn turns_are_taken()
    ensures replies { replies empty (journal prepared) turns
        ≡ begun 1 ∷ begun 2 ∷ answered done ∷ answered done ∷ answered done
        ∷ answered (val (int (pos 2))) ∷ answered done ∷ [] }
    ensures order { committed_in empty (journal (prepared ++ turns)) ≡ 1 ∷ 2 ∷ 0 ∷ [] }
    ensures bases { map (base_of empty (journal (prepared ++ turns))) (0 ∷ 1 ∷ [])
        ≡ Some (holding 1) ∷ Some (holding 2) ∷ [] }
    ensures effects { effects_of empty (journal (prepared ++ turns))
        ≡ ((0, Some (holding 0)) ∷ (1, Some (holding 0)) ∷ []) ∷ ((1, Some (holding 2)) ∷ [])
        ∷ ((0, Some (holding 1)) ∷ []) ∷ [] }
    ensures run { calls_run (journal (prepared ++ turns))
        ≡ ask 1 1 (Field 0) ∷ alter 1 0 (set_to 1) ∷ alter 2 1 (set_to 2)
        ∷ alter 0 1 (create (holding 0)) ∷ alter 0 0 (create (holding 0)) ∷ [] }
    ensures sub_replies { replies empty (journal prepared) sub_turns
        ≡ begun 1 ∷ begun 2 ∷ begun 3 ∷ answered done ∷ answered done ∷ answered done
        ∷ answered (val (int (pos 2))) ∷ answered done ∷ answered done ∷ [] }
    ensures sub_run { calls_run (journal (prepared ++ sub_turns))
        ≡ ask 2 1 (Field 0) ∷ alter 2 0 (set_to 1) ∷ alter 3 1 (set_to 2)
        ∷ alter 0 1 (create (holding 0)) ∷ alter 0 0 (create (holding 0)) ∷ [] }
{}

/// A write by a subaction keeps its parent, its sibling and its nested topaction out.
pub fn all_others_wait()
    ensures { replies empty (journal prepared) all_wait
        ≡ begun 1 ∷ begun 2 ∷ answered done ∷ refused Suspended ∷ begun 3 ∷ refused Conflict
        ∷ begun 4
        ∷ refused Conflict ∷ refused Suspended ∷ [] }
{}

/// The greatest depth is 64, and the number of actions has its limit; what was begun before the
/// opening is over.
pub fn limits_are_kept()
    ensures deep { replies empty (journal (begin_top ∷ chain 0 63)) (chain 63 1)
        ≡ refused TooDeep ∷ [] }
    ensures less_deep { replies empty (journal (begin_top ∷ chain 0 62)) (chain 62 1)
        ≡ begun 63 ∷ [] }
    ensures many { replies full [] (begin_top ∷ commit 5 ∷ [])
        ≡ refused TooMany ∷ refused Over ∷ [] }
{}
