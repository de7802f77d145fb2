//! The keywords of commands.
ghost use Rattle.std.specs.Prelude.{◌≡◌, ◌≢◌, MatchOption};
ghost use Rattle.slink_wire.specs.declared.keyword.Keyword.{Keyword};
ghost use Rattle.slink_wire.specs.Command.{in_small_letters};
ghost use Rattle.slink_wire.specs.private.Parsing.{text_of};

/// The word that a command begins with.
#[derive(Clone, Copy)]
pub(crate) enum Keyword {
    Hello,
    Station,
    Select,
    Data,
    Fetch,
    End,
    Bye,
}

/// The keyword that a word is, in either case.
#[tactic(auto, using(crate::proofs::Keywords::no_keyword))]
pub(crate) fn keyword_of(word: &[u8]) -> Option<Keyword>
    ensures { MatchOption result ((k : Keyword) → in_small_letters word.now ≢ text_of k)
        (λ k. in_small_letters word.now ≡ text_of k) }
{
    if word.eq_ignore_ascii_case(b"hello") {
        Some(Keyword::Hello)
    } else if word.eq_ignore_ascii_case(b"station") {
        Some(Keyword::Station)
    } else if word.eq_ignore_ascii_case(b"select") {
        Some(Keyword::Select)
    } else if word.eq_ignore_ascii_case(b"data") {
        Some(Keyword::Data)
    } else if word.eq_ignore_ascii_case(b"fetch") {
        Some(Keyword::Fetch)
    } else if word.eq_ignore_ascii_case(b"end") {
        Some(Keyword::End)
    } else if word.eq_ignore_ascii_case(b"bye") {
        Some(Keyword::Bye)
    } else {
        None
    }
}
