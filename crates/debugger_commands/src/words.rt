//! The words of a line, parted by one space.

ghost use Rattle.std.specs.Prelude.{◌≡◌, ◌<◌, length, position, option_map, IfSome};
ghost use Rattle.debugger_commands.specs.Words.{first_word, is_space, more_words, one_word, two_words, three_words};
ghost use Rattle.debugger_commands.specs.TwoWords.{seen_two, seen_three};

/// Two words.
#[derive(Clone, Copy)]
pub struct TwoWords<'a> {
    pub first: &'a [u8],
    pub second: &'a [u8],
}

/// Three words.
#[derive(Clone, Copy)]
pub struct ThreeWords<'a> {
    pub first: &'a [u8],
    pub others: TwoWords<'a>,
}

/// Returns the place of the first space.
fn space(text: &[u8]) -> Option<usize>
    ensures value { result ≡ position is_space text.now }
    ensures within { IfSome result (λ at. at < length text.now) }
{
    text.iter().position(|byte| *byte == b' ')
}

/// Returns the first word, which may be empty.
pub fn first_word(text: &[u8]) -> &[u8]
    ensures { result.now ≡ first_word text.now }
{
    match space(text) {
        None => text,
        Some(at) => &text[..at],
    }
}

/// Returns the text after the first space, if there is one.
pub fn more_words(text: &[u8]) -> Option<&[u8]>
    ensures { option_map (λ more. more.now) result ≡ more_words text.now }
{
    match space(text) {
        None => None,
        Some(at) => Some(&text[at + 1..]),
    }
}

/// Returns a text that is one word.
pub fn one_word(text: Option<&[u8]>) -> Option<&[u8]>
    ensures { option_map (λ word. word.now) result ≡ one_word (option_map (λ t. t.now) text.entry) }
{
    let text = text?;
    match more_words(text) {
        None => Some(text),
        Some(_) => None,
    }
}

/// Returns the two words of a text that has just one space.
pub fn two_words(text: Option<&[u8]>) -> Option<TwoWords<'_>>
    ensures { option_map seen_two result ≡ two_words (option_map (λ t. t.now) text.entry) }
{
    let text = text?;
    let second = one_word(more_words(text))?;
    Some(TwoWords {
        first: first_word(text),
        second,
    })
}

/// Returns the three words of a text that has two spaces.
pub fn three_words(text: Option<&[u8]>) -> Option<ThreeWords<'_>>
    ensures { option_map seen_three result ≡ three_words (option_map (λ t. t.now) text.entry) }
{
    let text = text?;
    let others = two_words(more_words(text))?;
    Some(ThreeWords {
        first: first_word(text),
        others,
    })
}
