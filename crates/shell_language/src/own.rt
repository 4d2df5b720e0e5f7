//! The words that begin lines which scripts do not have.
ghost use Rattle.std.specs.Prelude.{◌≡◌, map};
ghost use Rattle.shell_language.specs.Lines.{own_among, own_word_of};

/// What a line that scripts do not have is, by its first word.
#[derive(Clone, Copy)]
pub enum OwnWord {
    Load,
    Send,
    Log,
    SendPart,
    Part,
    Arrive,
    Type,
    Run,
    Rest,
    Why,
    Screen,
    Sector,
    Registers,
    Memory,
    Listing,
    Last,
    Check,
    Picture,
    Trace,
    Help,
    Quit,
}

// Each with its word.
static OWN_WORDS: [(&[u8], OwnWord); 21] = [
    (b"load", OwnWord::Load),
    (b"send", OwnWord::Send),
    (b"log", OwnWord::Log),
    (b"sendpart", OwnWord::SendPart),
    (b"part", OwnWord::Part),
    (b"arrive", OwnWord::Arrive),
    (b"type", OwnWord::Type),
    (b"run", OwnWord::Run),
    (b"rest", OwnWord::Rest),
    (b"why", OwnWord::Why),
    (b"screen", OwnWord::Screen),
    (b"sector", OwnWord::Sector),
    (b"regs", OwnWord::Registers),
    (b"look", OwnWord::Memory),
    (b"dis", OwnWord::Listing),
    (b"last", OwnWord::Last),
    (b"check", OwnWord::Check),
    (b"picture", OwnWord::Picture),
    (b"trace", OwnWord::Trace),
    (b"help", OwnWord::Help),
    (b"quit", OwnWord::Quit),
];

impl OwnWord {
    /// What begins with a word.
    pub fn of(word: &[u8]) -> Option<OwnWord>
        ensures { result ≡ own_word_of word.now }
    {
        OwnWord::among(&OWN_WORDS, word)
    }

    // The first of these rows that has the word.
    fn among(rows: &[(&[u8], OwnWord)], word: &[u8]) -> Option<OwnWord>
        ensures { result ≡ own_among (map (λ row. (row.0.now, row.1)) rows.now) word.now }
    {
        let mut rest = rows;
        'rows: while let [(text, own), after @ ..] = rest {
            if word == *text {
                return Some(*own);
            }
            rest = after;
        }
        None
    }
}
