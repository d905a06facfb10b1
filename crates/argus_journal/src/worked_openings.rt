//! Journals worked out: the past of a journal is folded into an opening, and the journal goes on
//! from there. Objects 0 and 1 are as in `worked`.
ghost use Rattle.std.specs.Prelude.{◌≡◌, ◌∷◌, [], None, Some, map, pos};
ghost use Rattle.argus_contents.specs.{Answer.{done, val}, Value.int};
ghost use Rattle.argus_entries.specs.Reply.{answered, begun, refused};
ghost use Rattle.argus_entries.specs.declared.refusal.Refusal.TheVariants.{NoAction, Over};
ghost use Rattle.argus_journal.specs.{Folding.fold, JournalFacts.{base_of, owner_in}};
ghost use Rattle.argus_journal.specs.declared.owner.Owner.TheVariants.{Base, Folded};
ghost use Rattle.argus_journal.specs.Opening.{empty};
ghost use Rattle.argus_journal.specs.Worked.{holding, journal, prepared, replies, then_calls};
ghost use Rattle.argus_journal.specs.WorkedOpenings.{checkpointed, going_on, under_the_folded};

/// The fold has the objects with their bases, and the next numbers; what was begun before is over.
pub fn the_past_is_folded()
    ensures fold { fold empty (journal prepared) ≡ checkpointed }
    ensures replies { replies checkpointed [] going_on
        ≡ refused Over ∷ begun 1 ∷ answered (val (int (pos 0))) ∷ refused NoAction ∷ answered done
        ∷ [] }
    ensures owners { map (owner_in checkpointed (then_calls checkpointed [] going_on))
        (0 ∷ 1 ∷ 2 ∷ [])
        ≡ Some Folded ∷ Some Base ∷ None ∷ [] }
    ensures base { base_of checkpointed (then_calls checkpointed [] going_on) 0 ≡ Some (holding 0) }
    ensures nothing_under { replies checkpointed [] under_the_folded
        ≡ refused Over ∷ refused Over ∷ refused Over ∷ [] }
{}
