//! What stands before a character in a text, and what stands after it.
ghost use Rattle.std.specs.Prelude.{◌≡◌, ◌==◌, ◌<◌};
ghost use Rattle.std.specs.List.{after_first, before_first};

/// What stands before the first of these characters, and what stands after it: all and nothing where there is none.
pub(crate) fn cut(text: &str, at: char) -> (&str, &str)
    requires { at < 128 }
    ensures before { result.0.now ≡ before_first (λ c. c == at) text.now }
    ensures after { result.1.now ≡ after_first (λ c. c == at) text.now }
{
    text.split_once(at).unwrap_or((text, ""))
}
