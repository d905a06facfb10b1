//! Histories worked out, on objects that hold a number. Each is drawn as a table in docs/MODEL.md.
ghost use Rattle.std.specs.Prelude.{◌≡◌, true, false, None, Some, [], ◌∷◌, map};
ghost use Rattle.argus_model.specs.Event.{Began, Committed, Aborted, Accessed, Sub, Nested};
ghost use Rattle.argus_model.specs.{Ancestors.is_ancestor, Owner.{owner, Folded, Gone, Held, Base}};
ghost use Rattle.argus_model.specs.Status.{is_live, has_live_child, live_siblings, status, IsLive};
ghost use Rattle.argus_model.specs.{Status.{IsCommitted, IsAborted, IsFolded}, Fold.fold};
ghost use Rattle.argus_model.specs.{OwnerSteps.owner_by_steps, Contents.{sees, base}};
ghost use Rattle.argus_model.specs.Holders.{readers, writers, may_read, may_write};
ghost use Rattle.argus_model.specs.Work.{work, committed_topactions, serial_order, serial_order_to};
ghost use Rattle.argus_model.specs.{Effects.{effects, table}, Lawful.{Allowed, Lawful}};
ghost use Rattle.argus_model.specs.Rows.{depth_at, is_above, rows, has_live_row};
ghost use Rattle.argus_model.specs.Run.{AnswersAgain};
ghost use Rattle.argus_model.specs.Worked.{Look, Put, numbers, looked, put, zeros, opened_late};
ghost use Rattle.argus_model.specs.Worked.{pair_begins, pair_goes_on, pair_ends, creator_works};
ghost use Rattle.argus_model.specs.Worked.{creator_aborts, creator_outlived, siblings_work};
ghost use Rattle.argus_model.specs.Worked.{siblings_aborted, siblings_end, turns_taken, turns_end};

/// Two subactions, 2 and 3, of topaction 1 at one object: 3 has to wait until 2 commits, and then
/// sees what 2 left.
pub fn parallel_pair()
    ensures lawful { Lawful numbers zeros pair_ends }

    // 2 has put 1 into object 0
    ensures holders { readers numbers pair_begins 0 ≡ [] × writers numbers pair_begins 0 ≡ 2 ∷ [] }
    ensures other_waits { may_read numbers pair_begins 3 0 ≡ false }
    ensures no_put_either { may_write numbers pair_begins 3 0 ≡ false }
    ensures parent_waits { may_read numbers pair_begins 1 0 ≡ false }
    ensures parent_rests { has_live_child pair_begins 1 ≡ true }
    ensures first { map (λ a. sees numbers zeros pair_begins a 0) (1 ∷ 2 ∷ 3 ∷ [])
        ≡ 0 ∷ 1 ∷ 0 ∷ [] }

    // 2 has committed, and 3 has looked at object 0, put 5 there and looked at object 1
    ensures handed_up { owner pair_goes_on 2 ≡ Held 1 }
    ensures by_steps { map (owner_by_steps pair_goes_on) (1 ∷ 2 ∷ 3 ∷ [])
        ≡ Some 1 ∷ Some 1 ∷ Some 3 ∷ [] }
    ensures both_hold { writers numbers pair_goes_on 0 ≡ 1 ∷ 3 ∷ [] }
    ensures reader { readers numbers pair_goes_on 0 ≡ 3 ∷ [] }
    ensures then { map (λ a. sees numbers zeros pair_goes_on a 0) (1 ∷ 3 ∷ []) ≡ 1 ∷ 5 ∷ [] }
    ensures not_yet { base numbers zeros pair_goes_on 0 ≡ 0 }
    ensures work_so_far { work pair_goes_on 1 ≡ put 0 1 0 ∷ [] }
    ensures serial_so_far { serial_order pair_goes_on ≡ [] }
    ensures serial_to_second { serial_order_to pair_goes_on 3
        ≡ looked 1 0 ∷ put 0 5 1 ∷ looked 0 1 ∷ put 0 1 0 ∷ [] }

    // 3 and 1 have committed
    ensures serial { serial_order pair_ends
        ≡ looked 1 0 ∷ put 0 5 1 ∷ looked 0 1 ∷ put 0 1 0 ∷ [] }
    ensures again { AnswersAgain numbers zeros.contents
        (put 0 1 0 ∷ looked 0 1 ∷ put 0 5 1 ∷ looked 1 0 ∷ []) }
    ensures for_good { base numbers zeros pair_ends 0 ≡ 5 }
    ensures effect { effects numbers zeros pair_ends ≡ ((0, 5) ∷ []) ∷ [] }
    ensures owners { map (owner pair_ends) (1 ∷ 2 ∷ 3 ∷ []) ≡ Base ∷ Base ∷ Base ∷ [] }
    ensures free { writers numbers pair_ends 0 ≡ [] }
{}

/// Topaction 1 is aborted, and with it its subaction 3 and 3's subaction 5, which has committed.
/// The nested topaction 2, which 1 began, has committed, too, and its effect stays. The nested
/// topaction 4, which 3 began, goes on.
pub fn nested_under_aborted_creator()
    ensures lawful { Lawful numbers zeros creator_outlived }

    // 2 has put 7 into object 0: for the locks it has nothing to do with its creator
    ensures creator_rests { has_live_child creator_works 1 ≡ true }
    ensures no_ancestor { is_ancestor creator_works 1 2 ≡ false }
    ensures creator_waits { may_read numbers creator_works 1 0 ≡ false }

    // 2 has committed, 3 has put 1 into object 1 and begun 4 and 5, 5 has committed, 1 is aborted
    ensures statuses { map (status creator_aborts) (1 ∷ 2 ∷ 3 ∷ 4 ∷ 5 ∷ [])
        ≡ IsAborted ∷ IsCommitted ∷ IsAborted ∷ IsLive ∷ IsAborted ∷ [] }
    ensures owners { map (owner creator_aborts) (1 ∷ 2 ∷ 3 ∷ 4 ∷ 5 ∷ [])
        ≡ Gone ∷ Base ∷ Gone ∷ Held 4 ∷ Gone ∷ [] }
    ensures by_steps { map (owner_by_steps creator_aborts) (1 ∷ 2 ∷ 3 ∷ 4 ∷ 5 ∷ [])
        ≡ None ∷ Some 0 ∷ None ∷ Some 4 ∷ None ∷ [] }
    ensures rows { map (λ row. row.status) (rows creator_aborts)
        ≡ IsAborted ∷ IsLive ∷ IsAborted ∷ IsCommitted ∷ IsAborted ∷ [] }
    ensures above { map (is_above 0 (rows creator_aborts) 1) (1 ∷ 2 ∷ 3 ∷ 4 ∷ 5 ∷ 6 ∷ [])
        ≡ true ∷ false ∷ true ∷ false ∷ true ∷ false ∷ [] }
    ensures depths { map (depth_at 0 (rows creator_aborts)) (1 ∷ 2 ∷ 3 ∷ 4 ∷ 5 ∷ 6 ∷ [])
        ≡ 1 ∷ 1 ∷ 2 ∷ 1 ∷ 3 ∷ 0 ∷ [] }
    ensures live_row { has_live_row (rows creator_aborts) 3 ≡ true }
    ensures no_live_row { has_live_row (rows creator_aborts) 1 ≡ false }
    ensures undone { writers numbers creator_aborts 1 ≡ [] }
    ensures work_apart { map (work creator_aborts) (1 ∷ 2 ∷ []) ≡ [] ∷ (put 0 7 0 ∷ []) ∷ [] }
    ensures contents { map (base numbers zeros creator_aborts) (0 ∷ 1 ∷ []) ≡ 7 ∷ 0 ∷ [] }

    // 4 has looked at both objects, and committed
    ensures topactions { committed_topactions creator_outlived ≡ 4 ∷ 2 ∷ [] }
    ensures serial { serial_order creator_outlived ≡ looked 0 7 ∷ looked 1 0 ∷ put 0 7 0 ∷ [] }
    ensures effects { effects numbers zeros creator_outlived ≡ ((0, 7) ∷ []) ∷ [] ∷ [] }
{}

/// Subaction 9 of topaction 3 has its siblings aborted: the subaction 5 with 7 under it, and the
/// nested topaction 6. Not aborted are 4, which has committed, and 8, a topaction that 5 began.
/// Actions 1 and 2 were folded.
pub fn siblings_are_aborted()
    ensures lawful { Lawful numbers opened_late siblings_end }

    // 7 has looked at object 1 and found 0: so it is a reader
    ensures reader { readers numbers siblings_work 1 ≡ 7 ∷ [] }
    ensures may_look { may_read numbers siblings_work 9 1 ≡ true }
    ensures may_not_put { may_write numbers siblings_work 9 1 ≡ false }
    ensures siblings { live_siblings siblings_work 9 ≡ 5 ∷ 6 ∷ [] }

    // 5 and 6 are aborted
    ensures statuses { map (status siblings_aborted) (2 ∷ 3 ∷ 4 ∷ 5 ∷ 6 ∷ 7 ∷ 8 ∷ 9 ∷ [])
        ≡ IsFolded ∷ IsLive ∷ IsCommitted ∷ IsAborted ∷ IsAborted ∷ IsAborted ∷ IsLive ∷ IsLive
        ∷ [] }
    ensures owners { map (owner siblings_aborted) (2 ∷ 4 ∷ 7 ∷ [])
        ≡ Folded ∷ Held 3 ∷ Gone ∷ [] }
    ensures free { readers numbers siblings_aborted 1 ≡ [] }

    // 8 has put 3 into object 1, and 9 and 3 have committed
    ensures still_live { is_live siblings_end 8 ≡ true }
    ensures contents { map (base numbers opened_late siblings_end) (0 ∷ 1 ∷ []) ≡ 1 ∷ 0 ∷ [] }
    ensures own_view { sees numbers opened_late siblings_end 8 1 ≡ 3 }
    ensures serial_to_nested { serial_order_to siblings_end 8 ≡ put 1 3 0 ∷ put 0 1 4 ∷ [] }
    ensures effects { effects numbers opened_late siblings_end ≡ ((0, 1) ∷ []) ∷ [] }
{}

/// Topactions 3 and 4 take turns, from an opening where object 0 holds 4. Topaction 4 began last
/// and commits first, so its work is first in the serial order. In the end the past is folded.
pub fn turns_are_taken()
    ensures lawful { Lawful numbers opened_late turns_end }

    // 3 has looked at object 0 and put 6 there, 4 has put 2 into object 1
    ensures both_kinds { readers numbers turns_taken 0 ≡ 3 ∷ []
        × writers numbers turns_taken 0 ≡ 3 ∷ [] }
    ensures each_waits { may_read numbers turns_taken 4 0 ≡ false
        × may_read numbers turns_taken 3 1 ≡ false }
    ensures apart { sees numbers opened_late turns_taken 3 0 ≡ 6
        × sees numbers opened_late turns_taken 4 0 ≡ 4 }

    // 4 has committed, 3 has looked at object 1, put 8 there and committed
    ensures order { committed_topactions turns_end ≡ 3 ∷ 4 ∷ [] }
    ensures serial { serial_order turns_end
        ≡ put 1 8 2 ∷ looked 1 2 ∷ put 0 6 4 ∷ looked 0 4 ∷ put 1 2 0 ∷ [] }
    ensures effects { effects numbers opened_late turns_end
        ≡ ((1, 2) ∷ []) ∷ ((0, 6) ∷ (1, 8) ∷ []) ∷ [] }

    ensures table { map (table opened_late.contents (effects numbers opened_late turns_end))
        (0 ∷ 1 ∷ 2 ∷ []) ≡ 6 ∷ 8 ∷ 0 ∷ [] }

    // the opening that goes on from there, after 21 entries
    ensures folded { map (fold numbers opened_late turns_end 21).contents (0 ∷ 1 ∷ 2 ∷ [])
        ≡ 6 ∷ 8 ∷ 0 ∷ [] }
    ensures numbers { (fold numbers opened_late turns_end 21).first_action ≡ 4
        × (fold numbers opened_late turns_end 21).first_entry ≡ 21 }
{}

/// What mustn't come next in these histories.
pub fn rules_refuse()
    // 2 and 3 are live under 1, and 2 has put 1 into object 0
    ensures commit_over_children { ¬ Allowed numbers zeros pair_begins (Committed 1) }
    ensures access_over_children { ¬ Allowed numbers zeros pair_begins (Accessed 1 1 (Look 0)) }
    ensures read_without_lock { ¬ Allowed numbers zeros pair_begins (Accessed 3 0 (Look 0)) }
    ensures write_without_lock { ¬ Allowed numbers zeros pair_begins (Accessed 3 0 (Put 5 0)) }
    ensures wrong_answer { ¬ Allowed numbers zeros pair_begins (Accessed 2 0 (Look 0)) }

    // 2 has committed
    ensures second_commit { ¬ Allowed numbers zeros pair_goes_on (Committed 2) }
    ensures abort_after_commit { ¬ Allowed numbers zeros pair_goes_on (Aborted (3 ∷ 2 ∷ [])) }
    ensures access_after_commit { ¬ Allowed numbers zeros pair_goes_on (Accessed 2 1 (Look 0)) }
    ensures begin_after_commit { ¬ Allowed numbers zeros pair_goes_on (Began (Sub 2)) }

    // 3 was aborted with its parent
    ensures begin_when_doomed { ¬ Allowed numbers zeros creator_aborts (Began (Nested 3)) }

    // 7 has looked at object 1
    ensures read_lock_for_a_write { ¬ Allowed numbers opened_late siblings_work
        (Accessed 9 1 (Put 1 0)) }
{}
