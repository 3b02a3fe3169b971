//! First words: each is that of one form of lines.
ghost use Rattle.std.specs.Prelude.{◌≡◌};
ghost use Rattle.aoe_script.specs.Classes.{keyword_of};

use crate::listed::listed;

/// The first word of a line.
#[derive(Clone, Copy)]
pub enum Keyword {
    Life,
    Shelf,
    Slot,
    Host,
    Attach,
    Readonly,
    Read,
    Write,
    Flush,
    Identify,
    Config,
    Masks,
    Reserve,
    Tick,
    Deliver,
    Pass,
    Skip,
    Again,
    Inject,
    Fail,
    Stop,
    Crash,
}

/// The first words.
const KEYWORDS: [(&[u8], Keyword); 22] = [
    (b"life", Keyword::Life),
    (b"shelf", Keyword::Shelf),
    (b"slot", Keyword::Slot),
    (b"host", Keyword::Host),
    (b"attach", Keyword::Attach),
    (b"readonly", Keyword::Readonly),
    (b"read", Keyword::Read),
    (b"write", Keyword::Write),
    (b"flush", Keyword::Flush),
    (b"identify", Keyword::Identify),
    (b"config", Keyword::Config),
    (b"masks", Keyword::Masks),
    (b"reserve", Keyword::Reserve),
    (b"tick", Keyword::Tick),
    (b"deliver", Keyword::Deliver),
    (b"pass", Keyword::Pass),
    (b"skip", Keyword::Skip),
    (b"again", Keyword::Again),
    (b"inject", Keyword::Inject),
    (b"fail", Keyword::Fail),
    (b"stop", Keyword::Stop),
    (b"crash", Keyword::Crash),
];

/// The first word that a word is.
pub(crate) fn keyword_of(word: &[u8]) -> Option<Keyword>
    ensures { result ≡ keyword_of word.now }
{
    listed(&KEYWORDS, word)
}
