//! The laws of the written forms. Each function does nothing: its contract is the law.

ghost use Rattle.argus_texts.specs.Laws.{ContentsAreReadBack, ContentTextsAreUnambiguous};
ghost use Rattle.argus_texts.specs.Laws.{FittingContentsAreReadBack, ShapeTextsAreUnambiguous};
ghost use Rattle.argus_texts.specs.Laws.{ValueTextsAreUnambiguous, ShapesAreReadBack};
ghost use Rattle.argus_texts.specs.Laws.{ValuesAreReadBack};

/// The written form of a value of depth at most 16 has no fault, and is the form of no other value.
/// So [`read_value`](crate::read_value) reads back all that [`write_value`](crate::write_value)
/// wrote.
pub fn values_are_read_back()
    ensures { ValuesAreReadBack }
{}

/// Two values with the same written form are the same value.
pub fn value_texts_are_unambiguous()
    ensures { ValueTextsAreUnambiguous }
{}

/// The same for contents: [`read_content`](crate::read_content) reads back all that
/// [`write_content`](crate::write_content) wrote.
pub fn contents_are_read_back()
    ensures { ContentsAreReadBack }
{}

/// A content that fits a shape which can be made is read back, too. For each [`Shape`],
/// [`limits_are_kept`](argus_contents::Shape::limits_are_kept) says that it can be made.
///
/// [`Shape`]: argus_contents::Shape
pub fn fitting_contents_are_read_back()
    ensures { FittingContentsAreReadBack }
{}

/// Two contents with the same written form are the same content.
pub fn content_texts_are_unambiguous()
    ensures { ContentTextsAreUnambiguous }
{}

/// The written form of a shape that can be made is accepted, and is the form of no other. So
/// [`read_shape`](crate::read_shape) reads back all that [`write_shape`](crate::write_shape) wrote.
pub fn shapes_are_read_back()
    ensures { ShapesAreReadBack }
{}

/// Two shapes with the same written form are the same shape.
pub fn shape_texts_are_unambiguous()
    ensures { ShapeTextsAreUnambiguous }
{}
