//! `Question`: what a host asks without an entry in the journal.

ghost use Rattle.std.specs.Prelude.{IfNone, IfSome, ◌≤◌};
ghost use Rattle.argus_embed.specs.Questions.{Asks};

use argus_actions::ActionId;
use argus_guardian::Listing;
use argus_values::ObjId;

/// What a host asks without an entry in the journal. It changes nothing, except for the text that
/// is kept if its answer is one.
///
/// | Kind | Question | Answer |
/// |---|---|---|
/// | 0, 1 | `CanRead`, `CanWrite` | whether the test would return yes now, and isn't refused |
/// | 2, 3, 4 | `Objects`, `Actions`, `Entries` | how many were declared, begun, journalled |
/// | 5 | `Base` | the text of the object's base, or `absent` |
/// | 6 | `Readers` | its read holders: a line `a1` each, in increasing number |
/// | 7 | `Versions` | its write holders: a line `a1 {7}` each, ancestors first |
/// | 8 | `Entry` | the entry's line |
/// | 9 to 12 | `List`, in the order of `Listing` | the listing; object 3 is named `o3` |
/// | 13 | `Shape` | the text of the shape with which the object was declared |
/// | 14 | `Status` | what became of the action: 1 live, 2 committed, 3 aborted, 4 folded |
/// | 15 | `Live` | the first live action from this number on |
/// | 16 | `FirstEntry` | the number of the first entry since the last checkpoint |
///
/// ```text
/// let question = Question::of(5, 0, 3, 0);                // Some(Question::Base(ObjId(3)))
/// ```
#[derive(Clone, Copy, Debug)]
pub enum Question {
    CanRead(ActionId, ObjId),
    CanWrite(ActionId, ObjId),
    Objects,
    Actions,
    Entries,
    Base(ObjId),
    Readers(ObjId),
    Versions(ObjId),
    Entry(u64),
    List(Listing),
    Shape(ObjId),
    Status(ActionId),
    Live(u32),
    FirstEntry,
}

impl Question {
    /// The question that the numbers stand for; `None` if there is no such kind.
    pub fn of(kind: u32, action: u32, object: u32, entry: u64) -> Option<Question>
        ensures asks { IfSome result (λ question. Asks kind action object entry question) }
        ensures none { IfNone result (17 ≤ kind) }
    {
        let o = ObjId(object);
        match kind {
            0 => Some(Question::CanRead(ActionId(action), o)),
            1 => Some(Question::CanWrite(ActionId(action), o)),
            2 => Some(Question::Objects),
            3 => Some(Question::Actions),
            4 => Some(Question::Entries),
            5 => Some(Question::Base(o)),
            6 => Some(Question::Readers(o)),
            7 => Some(Question::Versions(o)),
            8 => Some(Question::Entry(entry)),
            9 => Some(Question::List(Listing::Bases)),
            10 => Some(Question::List(Listing::Stacks)),
            11 => Some(Question::List(Listing::Journal)),
            12 => Some(Question::List(Listing::Audit)),
            13 => Some(Question::Shape(o)),
            14 => Some(Question::Status(ActionId(action))),
            15 => Some(Question::Live(action)),
            16 => Some(Question::FirstEntry),
            _ => None,
        }
    }
}
