// The words of a line, and the numbers among them.
ghost use Rattle.std.specs.Prelude.{◌≡◌, ◌≤◌, length, option_map};
ghost use Rattle.std.specs.Char.{is_ascii_whitespace};
ghost use Rattle.std.specs.List.{prefix_len};
ghost use Rattle.console.specs.Words.{number, remainder, with_digit, word, word_len, words_in, words_as};

/// Up to four words of a line. Where it has fewer, the last are empty.
#[derive(Clone, Copy)]
pub(crate) struct Words<'a> {
    pub verb: &'a [u8],
    pub first: &'a [u8],
    pub second: &'a [u8],
    pub third: &'a [u8],
}

// The first word of a text, and what follows it.
#[tactic(auto, unfolding(crate::specs::Words::word, crate::specs::Words::remainder))]
fn cut(text: &[u8]) -> (&[u8], &[u8])
    ensures word { result.0.now ≡ word text.now }
    ensures remainder { result.1.now ≡ remainder text.now }
{
    let text = &text[spaces(text)..];
    text.split_at(word_len(text))
}

pub(crate) fn first_word(line: &[u8]) -> &[u8]
    ensures { result.now ≡ word line.now }
{
    cut(line).0
}

fn spaces(text: &[u8]) -> usize
    ensures value { result ≡ prefix_len is_ascii_whitespace text.now }
    ensures most { result ≤ length text.now }
{
    text.iter().take_while(|b| b.is_ascii_whitespace()).count()
}

fn word_len(text: &[u8]) -> usize
    ensures value { result ≡ word_len text.now }
    ensures most { result ≤ length text.now }
{
    text.iter().take_while(|b| !b.is_ascii_whitespace()).count()
}

impl Words<'_> {
    // The words of a line, unless it has more than four.
    pub(crate) fn of(line: &[u8]) -> Option<Words<'_>>
        ensures { option_map words_as result ≡ words_in line.now }
    {
        let (verb, rest) = cut(line);
        let (first, rest) = cut(rest);
        let (second, rest) = cut(rest);
        let (third, rest) = cut(rest);
        if !cut(rest).0.is_empty() {
            return None;
        }
        Some(Words {
            verb,
            first,
            second,
            third,
        })
    }
}

// The number with one more digit, if it is below 2^32.
fn with_digit(number: u32, digit: u8) -> Option<u32>
    ensures { result ≡ with_digit number digit }
{
    if !digit.is_ascii_digit() {
        return None;
    }
    number.checked_mul(10)?.checked_add(u32::from(digit - b'0'))
}

// The number that a word writes in digits, if it is below 2^32.
pub(crate) fn number(word: &[u8]) -> Option<u32>
    ensures { result ≡ number word.now }
{
    if word.is_empty() {
        return None;
    }
    let mut number = 0;
    for digit in word {
        number = with_digit(number, *digit)?;
    }
    Some(number)
}
