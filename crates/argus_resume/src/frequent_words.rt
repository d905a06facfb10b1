//! The words of the most frequent lines, as patterns: a pattern is compiled to a comparison in place,
//! where a call of `strip_prefix` may stay a call.

ghost use Rattle.std.specs.Prelude.{IfSome, codes, ◌++◌, ◌≡◌};

/// What comes after `begin_top`.
#[inline(always)]
pub(crate) fn behind_begin_top(text: &[u8]) -> Option<&[u8]>
    ensures { IfSome result (λ rest. text.now ≡ codes "begin_top" ++ rest.now) }
{
    let [b'b', b'e', b'g', b'i', b'n', rest @ ..] = text else {
        return None;
    };
    match rest {
        [b'_', b't', b'o', b'p', rest @ ..] => Some(rest),
        _ => None,
    }
}

/// What comes after ` set_field `, with the spaces around it.
#[inline(always)]
pub(crate) fn behind_set_field(text: &[u8]) -> Option<&[u8]>
    ensures { IfSome result (λ rest. text.now ≡ codes " set_field " ++ rest.now) }
{
    let [b' ', b's', b'e', b't', b'_', rest @ ..] = text else {
        return None;
    };
    match rest {
        [b'f', b'i', b'e', b'l', b'd', b' ', rest @ ..] => Some(rest),
        _ => None,
    }
}

/// What comes after the arrow between a call and its reply, with the spaces around it.
#[inline(always)]
pub(crate) fn behind_arrow(text: &[u8]) -> Option<&[u8]>
    ensures { IfSome result (λ rest. text.now ≡ codes " -> " ++ rest.now) }
{
    match text {
        [b' ', b'-', b'>', b' ', rest @ ..] => Some(rest),
        _ => None,
    }
}

/// What comes after `done`.
#[inline(always)]
pub(crate) fn behind_done(text: &[u8]) -> Option<&[u8]>
    ensures { IfSome result (λ rest. text.now ≡ codes "done" ++ rest.now) }
{
    match text {
        [b'd', b'o', b'n', b'e', rest @ ..] => Some(rest),
        _ => None,
    }
}
