//! `TellsEffects`: how a value stands for effects.

use crate::effect::Effect;

/// The effects that a value stands for in contracts. It has no values.
pub trait TellsEffects<X> {
    ghost use Rattle.std.specs.Prelude.{List};
    ghost use Rattle.argus_contents.specs.Effect.{Effect};

    /// The effects, the newest last.
    ghost effects: { X → List Effect };
}

/// An effect stands for itself.
pub(crate) struct Leaves;

impl TellsEffects<Effect> for Leaves {
    ghost use Rattle.std.specs.Prelude.{[], ◌∷◌};
    ghost use Rattle.argus_contents.specs.Effect.{plain_effect};

    ghost effects = { λ effect. plain_effect effect.items ∷ [] };
}
