//! Fragments are cut at their slashes.
ghost use Rattle.std.specs.Prelude.{◌≡◌, ◌∷◌, ◌<◌, IfSome, length, option_copied};
ghost use Rattle.std.specs.List.{slice_split};
ghost use Rattle.web_uris.specs.Paths.{is_slash, segments};

/// The text before the first slash, and the text after it; without a slash, the whole text and `None`. Takes no memory.
pub(crate) fn first_segment(text: &str) -> (&str, Option<&str>)
    ensures segments { slice_split is_slash text.now ≡ result.0.now ∷ segments (option_copied result.1) }
    ensures shorter { IfSome result.1 (λ behind. length behind.now < length text.now) }
{
    match text.split_once('/') {
        Some((segment, behind)) => (segment, Some(behind)),
        None => (text, None),
    }
}
