//! The names of a folded head.

ghost use Rattle.std.specs.Prelude.{◌≡◌, ◌<◌, ◌∷◌, [], length, IfSome, MatchOption};
ghost use Rattle.std.specs.List.{slice_split};
ghost use Rattle.folded_lines.specs.Lines.{is_semicolon};
ghost use Rattle.folded_lines.specs.checked.Cutting.{without_trailing_semicolons};

use bstr::ByteSlice;

pub(crate) fn without_trailing_semicolons(head: &[u8]) -> &[u8]
    ensures { result.now ≡ without_trailing_semicolons head.now }
{
    let mut end = head.len();
    while end > 0 && head[end - 1] == b';' {
        end -= 1;
    }
    &head[..end]
}

/// The first name, and what follows the `;` after it.
pub(crate) fn first_name(text: &str) -> (&str, Option<&str>)
    ensures split { MatchOption result.1
        (slice_split is_semicolon text.now ≡ result.0.now ∷ [])
        (λ rest. slice_split is_semicolon text.now
        ≡ result.0.now ∷ slice_split is_semicolon rest.now) }
    ensures shorter { IfSome result.1 (λ rest. length rest.now < length text.now) }
{
    match text.as_bytes().find_byte(b';') {
        None => (text, None),
        Some(at) => (&text[..at], Some(&text[at + 1..])),
    }
}
