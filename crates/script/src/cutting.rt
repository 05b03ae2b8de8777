//! Cutting bytes at one of them.

ghost use Rattle.std.specs.Prelude.{◌≡◌, ◌<◌, ◌==◌, [], ◌∷◌, length, MatchOption, IfSome};
ghost use Rattle.std.specs.List.{position, slice_split};

/// What stands before the first such byte, and what stands after it; all and `None` where there is none.
pub fn cut(text: &[u8], at: u8) -> (&[u8], Option<&[u8]>)
    ensures parts { MatchOption result.1
        (slice_split (λ byte. byte == at) text.now ≡ result.0.now ∷ [])
        (λ rest. slice_split (λ byte. byte == at) text.now ≡ result.0.now ∷ slice_split (λ byte. byte == at) rest.now) }
    ensures shorter { IfSome result.1 (λ rest. length rest.now < length text.now) }
{
    match place_of(text, at) {
        Some(index) => (&text[..index], Some(&text[index + 1..])),
        None => (text, None),
    }
}

/// The index of the first such byte.
fn place_of(text: &[u8], at: u8) -> Option<usize>
    ensures { result ≡ position (λ byte. byte == at) text.now }
{
    text.iter().position(|byte| *byte == at)
}
