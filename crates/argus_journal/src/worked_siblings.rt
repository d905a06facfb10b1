//! Journals worked out: an action ends all its live siblings in one step. Objects 0 and 1 are as in
//! `worked`.
ghost use Rattle.std.specs.Prelude.{◌≡◌, ◌∷◌, ◌++◌, [], Some, false, map, pos, true};
ghost use Rattle.argus_contents.specs.{Answer.{done, val}, Value.int};
ghost use Rattle.argus_entries.specs.Reply.{answered, begun, refused};
ghost use Rattle.argus_entries.specs.declared.refusal.Refusal.TheVariants.{NoAction, NoSiblings};
ghost use Rattle.argus_entries.specs.declared.refusal.Refusal.TheVariants.{Over, Suspended};
ghost use Rattle.argus_journal.specs.JournalFacts.{base_of, is_live_in, owner_in, versions_of};
ghost use Rattle.argus_journal.specs.{declared.owner.Owner.TheVariants.Gone, Opening.empty};
ghost use Rattle.argus_journal.specs.Worked.{held, holding, journal, prepared, replies};
ghost use Rattle.argus_journal.specs.WorkedSiblings.{a_nested_one_ends_others, afterwards};
ghost use Rattle.argus_journal.specs.WorkedSiblings.{both_kinds_end, none_is_left, others_end};
ghost use Rattle.argus_journal.specs.WorkedSiblings.{what_they_held_is_free};

/// Live siblings of both kinds end with all actions under them; a sibling that has committed stays
/// so, and a nested topaction begun under a sibling goes on.
pub fn others_are_ended()
    ensures replies { replies empty (journal prepared) others_end
        ≡ begun 1 ∷ begun 2 ∷ begun 3 ∷ begun 4 ∷ begun 5 ∷ begun 6 ∷ answered done ∷ answered done
        ∷ begun 7 ∷ answered done ∷ [] }
    ensures live { map (is_live_in empty (journal (prepared ++ others_end)))
        (1 ∷ 2 ∷ 3 ∷ 4 ∷ 5 ∷ 6 ∷ 7 ∷ [])
        ≡ true ∷ false ∷ false ∷ false ∷ false ∷ true ∷ true ∷ [] }
    ensures owners { map (owner_in empty (journal (prepared ++ others_end)))
        (2 ∷ 3 ∷ 4 ∷ 5 ∷ 6 ∷ [])
        ≡ held 1 ∷ Some Gone ∷ Some Gone ∷ Some Gone ∷ held 6 ∷ [] }
    ensures then { replies empty (journal (prepared ++ others_end)) afterwards
        ≡ refused Over ∷ answered (val (int (pos 0))) ∷ refused Suspended ∷ answered done
        ∷ refused NoSiblings
        ∷ answered done ∷ [] }
    ensures base { base_of empty (journal (prepared ++ others_end ++ afterwards)) 0
        ≡ Some (holding 1) }
{}

/// What they held is free; a sibling begun later is untouched.
pub fn both_kinds_are_ended()
    ensures replies { replies empty (journal prepared) both_kinds_end
        ≡ begun 1 ∷ begun 2 ∷ begun 3 ∷ begun 4 ∷ answered done ∷ answered done ∷ answered done
        ∷ begun 5 ∷ [] }
    ensures free { map (versions_of empty (journal (prepared ++ both_kinds_end))) (0 ∷ 1 ∷ [])
        ≡ [] ∷ [] ∷ [] }
    ensures then { replies empty (journal (prepared ++ both_kinds_end)) what_they_held_is_free
        ≡ answered done ∷ answered done ∷ refused Over ∷ refused Over ∷ [] }
{}

/// If no sibling is live nothing ends, and the reply is done; an action that is over or not begun
/// is refused.
pub fn no_other_is_left()
    ensures { replies empty (journal prepared) none_is_left
        ≡ begun 1 ∷ begun 2 ∷ begun 3 ∷ answered done ∷ answered done ∷ answered (val (int (pos 0)))
        ∷ refused NoAction ∷ refused Over ∷ [] }
{}

/// A nested topaction is a sibling of its creator's subactions.
pub fn a_nested_topaction_ends_others()
    ensures { replies empty (journal prepared) a_nested_one_ends_others
        ≡ begun 1 ∷ begun 2 ∷ begun 3 ∷ answered done ∷ refused Over ∷ answered done ∷ answered done
        ∷ [] }
{}
