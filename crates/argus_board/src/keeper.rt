//! `Keeper`: what alone adds to the history of a board.

ghost use Rattle.std.specs.Prelude.{ℕ, ◌++◌, ◌≡◌};
ghost use mathlib.Core.List.{IsPrefix};
ghost use Rattle.logbook.specs.Pages.{may_write};
ghost use Rattle.argus_board.specs.{History.head_of, HistoryPrefix.{book_of, line_of}};

use crate::history_prefix::HistoryPrefix;
use crate::page::Page;
use crate::pages::{Add, Grow, Law, Leaf, Nothing, SeeUnused};
use crate::tells_effects::TellsEffects;
use logbook::{Offer, Pen, Seen, Start, Word};
use std::snapshot::Snapshot;

/// What alone adds to the history of a board, with the whole history. It takes one word, which
/// never changes: the history itself exists only in contracts.
///
/// Make one for each board, before the board, whose contracts name the history by it.
///
/// ```text
/// publish_and_look::<Brand, _>(rt, heap, Keeper::new())?;     // the function of `Board`
/// ```
#[derive(Drop)]
pub struct Keeper {
    head: Word<Page, u64, Law>,
    pub(crate) pen: Pen,
    pub(crate) front: HistoryPrefix,
    ghost of_book: { (head ≡ head_of front.seen.book) × (pen.book ≡ front.seen.book) },
    ghost right: { pen.nib.right ≡ may_write },
}

impl Keeper {
    ghost use Rattle.argus_board.specs.Keeper.{HoldsNext, IsNew, history_of, next_right_of};

    /// A history with no effect. It takes no memory.
    pub fn new() -> Keeper
        ensures { IsNew result }
    {
        let (seen, mut first, _second) = Seen::open(Start::alone(), 0, 0);
        let head = Word::tracked(0, &mut first);
        let pen = right_of(&head, &seen);
        Keeper {
            head,
            pen,
            front: HistoryPrefix { seen },
        }
    }

    /// Adds the effects that this stands for to the line of its right. It can't fail.
    pub(crate) fn add<X, M: TellsEffects<X>>(&mut self, about: Snapshot<X>)
        ensures book { history_of self.new ≡ history_of self.old }
        ensures line { (root : ℕ) → HoldsNext root self.old
            → line_of root self.new.front ≡ line_of root self.old.front ++ M.effects about.value }
        ensures next_right { (root : ℕ) → HoldsNext root self.old → HoldsNext root self.new }
    {
        let Keeper { head, pen, front } = self;
        let leaf = Leaf {
            about,
            next: right_of(&*head, &front.seen),
        };
        let seen = &mut front.seen;
        let mut offer: Offer<Page, u64, Law, Nothing> = seen.plain::<Nothing, Leaf<X>, Add<M>>(
            &leaf,
        );
        head.compare_exchange::<Add<M>, Nothing>(0, 0, seen, &mut offer, pen);
        let Leaf { about: _, next } = leaf;
        *pen = next;
    }

    /// Whatever was seen of its line is a prefix of it.
    pub(crate) fn covers(&mut self, other: &HistoryPrefix)
        requires { book_of other.now ≡ history_of self.old }
        ensures front { self.new.front ≡ self.old.front }
        ensures next_right { next_right_of self.new ≡ next_right_of self.old }
        ensures begins { (root : ℕ) → HoldsNext root self.old
            → IsPrefix (line_of root other.now) (line_of root self.old.front) }
    {
        let Keeper { head, pen, front } = self;
        let mut both = front.seen.again();
        both.learn(&other.seen);
        let mut offer: Offer<Page, u64, Law, Nothing> = both.plain::<Nothing, u8, Grow>(&0);
        head.compare_exchange::<SeeUnused, Nothing>(0, 0, &mut both, &mut offer, pen);
    }
}

/// A right that no page has used up.
fn right_of(head: &Word<Page, u64, Law>, seen: &Seen<Page, u64, Law>) -> Pen
    requires { head.now ≡ head_of seen.now.book }
    ensures book { result.book ≡ seen.now.book }
    ensures right { result.nib.right ≡ may_write }
{
    let mut seen = seen.again();
    let mut pen = seen.no_pen();
    let mut offer: Offer<Page, u64, Law, Nothing> = seen.plain::<Nothing, u8, Grow>(&0);
    head.compare_exchange::<Grow, Nothing>(0, 0, &mut seen, &mut offer, &mut pen);
    drop(Word::<Page, u64, Law>::tracked(0, &mut pen));
    pen
}
