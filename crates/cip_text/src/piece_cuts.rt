//! Cutting a text at line feeds.
ghost use Rattle.std.specs.Prelude.{◌≡◌, ◌++◌, ◌∷◌, false, MatchOption};
ghost use Rattle.std.specs.List.{list_any};
ghost use Rattle.cip_text_rules.specs.Lines.{is_line_feed};

use memchr::memchr;

/// What stands before the first line feed, and what stands behind it; none where there is no line feed.
pub fn cut_line(bytes: &[u8]) -> Option<(&[u8], &[u8])>
    ensures { MatchOption result (list_any is_line_feed bytes.now ≡ false)
        (λ cut. (bytes.now ≡ cut.0.now ++ 10 ∷ cut.1.now) × (list_any is_line_feed cut.0.now ≡ false)) }
{
    match memchr(b'\n', bytes) {
        None => None,
        Some(at) => Some((&bytes[..at], &bytes[at + 1..])),
    }
}
