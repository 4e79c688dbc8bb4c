//! Cutting bytes at a separator.

ghost use Rattle.std.specs.Prelude.{◌≡◌, ◌≢◌, ◌+◌, ◌<◌, ◌∷◌, ◌==◌, ℕ, length, slice_index, All, take, IfSome, IfNone};
ghost use Rattle.std.specs.Option.{option_copied};
ghost use Rattle.std.specs.List.{slice_split};
ghost use Rattle.trace_codec.specs.Cut.{IsFirstAt, parts_of};

/// The part before the first separator, and what stands behind it where there is one.
pub(crate) fn cut(bytes: &[u8], separator: u8) -> (&[u8], Option<&[u8]>)
    ensures parts { slice_split (λ b. b == separator) bytes.now ≡ result.0.now
        ∷ parts_of separator (option_copied result.1) }
    ensures fewer { IfSome result.1 (λ rest. length rest.now < length bytes.now) }
{
    match first_place(bytes, separator) {
        Some(at) => (&bytes[..at], Some(&bytes[at + 1..])),
        None => (bytes, None),
    }
}

/// Where the separator stands first.
fn first_place(bytes: &[u8], separator: u8) -> Option<usize>
    ensures found { IfSome result (λ at. IsFirstAt separator at bytes.now) }
    ensures none { IfNone result (All (λ b. b ≢ separator) bytes.now) }
{
    bytes.iter().position(|b| *b == separator)
}
