//! The step-by-step definitions, which proofs about a guardian's state use, agree with the plain
//! ones.
ghost use Rattle.std.specs.Prelude.{◌≡◌, ◌≢◌, ℕ, Bool, true, false};
ghost use Rattle.argus_model.specs.{History.{HistoryOpening, History}, Numbers.contains};
ghost use Rattle.argus_model.specs.{Status.{is_begun, is_live, has_live_child}, Owner.owner};
ghost use Rattle.argus_model.specs.OwnerSteps.{owner_by_steps, as_owner, stands, standing_child};
ghost use Rattle.argus_model.specs.{Meaning.Meaning, Holders.{holders, may_read, may_write}};
ghost use Rattle.argus_model.specs.{HolderSteps.{holds, may_by_steps}, Contents.{sees, base}};
ghost use Rattle.argus_model.specs.{Work.content_after, WorkSteps.{visible_accesses, LawfulSteps}};
ghost use Rattle.argus_model.specs.Lawful.{Lawful};

/// Of owners and live actions.
pub fn owner_forms<V, C, A>()
    ensures owner { (meaning : Meaning V C A) (opening : HistoryOpening C) (h : History V) (a : ℕ)
        → Lawful meaning opening h → is_begun h a ≡ true
        → owner h a ≡ as_owner (owner_by_steps h a) }
    ensures live { (meaning : Meaning V C A) (opening : HistoryOpening C) (h : History V) (a : ℕ)
        → Lawful meaning opening h → a ≢ 0
        → is_live h a ≡ stands h a }
    ensures child { (meaning : Meaning V C A) (opening : HistoryOpening C) (h : History V) (a : ℕ)
        → Lawful meaning opening h
        → has_live_child h a ≡ standing_child h a h }
{}

/// Of holders and the lock rules. The base isn't a holder.
pub fn holder_forms<V, C, A>()
    ensures holders { (meaning : Meaning V C A) (opening : HistoryOpening C) (h : History V)
        (kind : V → Bool) (o x : ℕ) → Lawful meaning opening h → x ≢ 0
        → contains (holders kind h o) x ≡ holds kind h o false x }
    ensures base { (kind : V → Bool) (h : History V) (o : ℕ)
        → contains (holders kind h o) 0 ≡ false }
    ensures read { (meaning : Meaning V C A) (opening : HistoryOpening C) (h : History V) (a o : ℕ)
        → Lawful meaning opening h
        → may_read meaning h a o ≡ may_by_steps meaning.writes h a o false h }
    ensures write { (meaning : Meaning V C A) (opening : HistoryOpening C) (h : History V) (a o : ℕ)
        → Lawful meaning opening h
        → may_write meaning h a o ≡ may_by_steps meaning.writes h a o true h }
{}

/// Of what an action sees, of bases, and of lawful histories.
pub fn content_forms<V, C, A>()
    ensures sees { (meaning : Meaning V C A) (opening : HistoryOpening C) (h : History V) (a o : ℕ)
        → Lawful meaning opening h
        → sees meaning opening h a o
        ≡ content_after meaning opening.contents o (visible_accesses h a) }
    ensures base { (meaning : Meaning V C A) (opening : HistoryOpening C) (h : History V) (o : ℕ)
        → Lawful meaning opening h
        → base meaning opening h o
        ≡ content_after meaning opening.contents o (visible_accesses h 0) }
    ensures lawful { (meaning : Meaning V C A) (opening : HistoryOpening C) (h : History V)
        → Lawful meaning opening h → LawfulSteps meaning opening.contents h }
{}
