//! `LineStop`: why a part of a line wasn't read.

use argus_texts::front::Stop;

// As `Stop`, with a case for shapes: a shape's reader says only that there is none.
#[derive(Debug, Drop)]
pub(crate) enum LineStop {
    // This many bytes are left where the text stops being the beginning of a form.
    Left(usize),
    // This many bytes are left where a shape had to come, and none does.
    Shape(usize),
    OutOfMemory,
}

impl From<Stop> for LineStop {
    ghost use Rattle.std.specs.Prelude.{◌≡◌};
    ghost use Rattle.argus_reading.specs.Farther.{line_stop};

    ghost from_gives = { λ stop given. given ≡ line_stop stop };

    fn from(stop: Stop) -> LineStop {
        match stop {
            Stop::Left(left) => LineStop::Left(left),
            Stop::Memory => LineStop::OutOfMemory,
        }
    }
}
