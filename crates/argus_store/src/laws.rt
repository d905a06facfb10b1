//! The laws of a log: what each append and fold says of a crash, put together, and what a restart finds.

ghost use Rattle.std.specs.Prelude.{◌≡◌, ◌≢◌, ◌++◌, ℕ, Bool, List, Option, Some, [], flat_map, pos};
ghost use Rattle.argus_journal.specs.JournalView.{JournalView};
ghost use Rattle.argus_guardian.specs.{JournalText.journal_text, ResumeLaws.IsListable, Resumed.IsResumed};
ghost use Rattle.argus_guardian.specs.resume_declared.resumed.Resumed.{Resumed};
ghost use Rattle.argus_guardian.specs.resume_declared.read_end.ReadEnd.TheVariants as read;
ghost use Rattle.argus_store.specs.{Journal.{Journal, new_journal}, Runs.{end_behind, with_all}};
ghost use Rattle.argus_store.specs.{declared.end.End.End, End.{EndsAt, end_folded, end_of_new, folded}};
ghost use Rattle.argus_store.specs.Chain.{IsChained, Opens, ended, listing_of};
ghost use Rattle.argus_store.specs.Durability.{Begins, HasCommit, IsDurable, IsFound, MayLeave, Moment};
ghost use Rattle.argus_store.specs.Durability.{Reopens, Runs, moment};
ghost use Rattle.argus_store.specs.Kept.{IsAcknowledged, IsKept, KeptState, LeavesFront};
ghost use Rattle.argus_store.specs.{Journal.HoldsLog, Store.{HasLog, Leaves}};
ghost use Rattle.argus_journal.specs.{Call.commit, JournalView.after};
ghost use Rattle.sqlite.specs.{Held.{Held, state}, Tree.Trees};

use argus_guardian::resume_laws::listings_are_resumed;
use sqlite::Alter;

/// However many appends a log has taken, over however many runs, its rows follow from one another,
/// and its listing is the text from before with the lines of each append behind it, in their order
/// and each once. A crash leaves the log from before an append or after it, and after it if the
/// append was acknowledged, says `Store::append`: so all acknowledged lines are there, and none in
/// part. After a fold the listing is its opening, and goes on from there. It changes nothing: its
/// contract is the law.
pub fn appends_are_listed()
    ensures begins { (name version : List ℕ)
        → let j = new_journal name version (pos (end_of_new name).sum) in
        IsChained j × (listing_of j ≡ []) }
    ensures goes_on { (j : Journal) (name : List ℕ) (end : End) (all : List (List ℕ)) → IsChained j
        → EndsAt j name end → let k = with_all j name end all in
        IsChained k × EndsAt k name (end_behind name end all)
        × (listing_of k ≡ listing_of j ++ flat_map ended all) }
    ensures folds { (j : Journal) (name : List ℕ) (end : End) (opening : List ℕ) → EndsAt j name end
        → Opens end opening → let k = folded j name end opening in
        IsChained k × EndsAt k name (end_folded name end opening) × (listing_of k ≡ ended opening) }
{}

/// What `Kept` has acknowledged comes back: resumed from its listing, the guardian has the journal
/// that was there, given memory and if no read fails. Its opening and calls have to be readable.
pub fn kept_is_resumed()
    ensures { (j : Journal) (journal : JournalView) (has : Option (List ℕ)) (failed : Bool)
        (resumed : Resumed) → listing_of j ≡ journal_text journal → IsListable journal
        → IsResumed (Some (listing_of j)) has failed resumed
        → resumed.end ≢ read.OutOfMemory → resumed.end ≢ read.Read
        → resumed.guardian ≡ journal }
{
    listings_are_resumed();
}

/// However often a process ends, at whatever moment, and the log is opened again: the log lists all
/// that a commit has acknowledged, and nothing that the guardian hasn't made. So a guardian that was
/// made again begins with what was acknowledged, and has nothing but what the one before it had made,
/// or tried to commit.
///
/// `Runs` is any sequence of calls, commits, ends and openings. Of a commit, and of what a crash leaves,
/// it takes no more than the clauses of `Kept` say: `kept_takes_steps`. Each journal has to be one
/// that a listing spells.
pub fn acknowledged_is_durable()
    ensures durable { (begin now : Moment) → Begins begin → Runs begin now → IsDurable now }
    ensures found { (begin last next : Moment) → Begins begin → Runs begin last → Reopens last next
        → IsFound last next }
{
    listings_are_resumed();
}

/// What the clauses of `Kept` say are steps of such runs: what a commit has done that returned `Ok`,
/// and what a crash leaves of the log, between two calls or of a commit.
pub fn kept_takes_steps<S: Alter>()
    ensures commits { (old now : KeptState S) (acknowledged : JournalView) (action : ℕ) (j : Journal)
        → now.journal ≡ after old.journal (commit action) → IsListable now.journal
        → IsAcknowledged S.Store old.name old.end now j
        → (log : Journal) × HasLog (state S.Store now.store) log
        × HasCommit (moment old.journal acknowledged j) action log }
    ensures stays { (k : KeptState S) (j : Journal) → IsKept S.Store k j
        → Leaves (state S.Store k.store) j }
    ensures crashes { (old : KeptState S) (acknowledged : JournalView) (action : ℕ) (j : Journal)
        (store : Held S) → IsListable (after old.journal (commit action))
        → LeavesFront S.Store old store (after old.journal (commit action)) j
        → (db : Trees) → (state S.Store store).may_leave db
        → (log : Journal) × HoldsLog db log × MayLeave (moment old.journal acknowledged j) log }
{}
