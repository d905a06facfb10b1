//! `Origin`: how an action was begun.

ghost use Rattle.std.specs.Prelude.{◌≡◌};
ghost use Rattle.argus_actions.specs.Row.{under_of};

/// How an action was begun, with the number of the action that it was begun under.
#[derive(Clone, Copy, Debug, PartialEq, Eq)]
pub(crate) enum Origin {
    /// As a topaction, under no other.
    Top,
    /// As a subaction of this parent.
    Sub(u32),
    /// As a nested topaction of this creator, which is no ancestor of it.
    Nested(u32),
}

impl Origin {
    /// The action that it was begun under: its parent, or its creator.
    pub(crate) fn under(self) -> Option<u32>
        ensures { result ≡ under_of self }
    {
        match self {
            Origin::Top => None,
            Origin::Sub(parent) => Some(parent),
            Origin::Nested(creator) => Some(creator),
        }
    }
}
