// Whether words are plain: each is a name, a value, or an option by its name alone.
ghost use Rattle.std.specs.Prelude.{◌≡◌};
ghost use Rattle.std.specs.List.{list_all};
ghost use Rattle.centre_words.specs.Words.{texts};
ghost use Rattle.centre_words.specs.PlainWords.{is_bare, is_word};

fn is_bare(name: &[u8]) -> bool
    ensures { result ≡ is_bare name.now }
{
    !name.is_empty() && !name.contains(&b'=')
}

fn is_word(word: &str) -> bool
    ensures { result ≡ is_word word.now }
{
    match word.as_bytes() {
        [] => false,
        [b'-', b'-', name @ ..] => is_bare(name),
        [first, ..] => *first != b'-',
    }
}

/// Whether the words are plain. Time grows with the length of the words.
pub fn are_plain(words: &[String]) -> bool
    ensures { result ≡ list_all is_word (texts words.now) }
{
    for word in words {
        if !is_word(word.as_str()) {
            return false;
        }
    }
    true
}
