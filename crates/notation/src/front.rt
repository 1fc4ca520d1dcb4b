// What stands at the front of a text, and what follows it.
ghost use Rattle.std.specs.Prelude.{◌≡◌, ◌^◌};
ghost use Rattle.std.specs.Option.{option_copied};
ghost use Rattle.notation.specs.Front.{after, digit_count, front_as, number_below, place_between};
ghost use Rattle.notation.specs.Front.{plain_number};

use itoa::Buffer;
use std::str;

// What follows a word.
pub(crate) fn after<'a>(text: &'a [u8], word: &[u8]) -> Option<&'a [u8]>
    ensures { option_copied result ≡ after word.now text.now }
{
    text.strip_prefix(word)
}

fn digit_count(text: &[u8]) -> usize
    ensures { result ≡ digit_count text.now }
{
    text.iter().take_while(|b| b.is_ascii_digit()).count()
}

// The number of these digits, if it is printed as they stand: with no sign, and no zeros before it.
fn plain_number(digits: &[u8]) -> Option<u64>
    ensures { result ≡ plain_number digits.now }
{
    let number = str::from_utf8(digits).ok()?.parse::<u64>().ok()?;
    if Buffer::new().format(number).as_bytes() == digits {
        Some(number)
    } else {
        None
    }
}

// A record's number.
#[tactic(auto, unfolding(crate::specs::Front::number_below))]
pub(crate) fn number(text: &[u8]) -> Option<(u64, &[u8])>
    ensures { front_as result ≡ number_below (2 ^ 64) text.now }
{
    let (digits, rest) = text.split_at(digit_count(text));
    Some((plain_number(digits)?, rest))
}

// A place, and whatever a record holds in one byte.
#[tactic(auto, unfolding(crate::specs::Front::number_below))]
fn place(text: &[u8]) -> Option<(u8, &[u8])>
    ensures { front_as result ≡ number_below (2 ^ 8) text.now }
{
    let (number, rest) = number(text)?;
    Some((u8::try_from(number).ok()?, rest))
}

// A length.
#[tactic(auto, unfolding(crate::specs::Front::number_below))]
pub(crate) fn length(text: &[u8]) -> Option<(u16, &[u8])>
    ensures { front_as result ≡ number_below (2 ^ 16) text.now }
{
    let (number, rest) = number(text)?;
    Some((u16::try_from(number).ok()?, rest))
}

// A rate or a tag.
#[tactic(auto, unfolding(crate::specs::Front::number_below))]
pub(crate) fn value(text: &[u8]) -> Option<(u32, &[u8])>
    ensures { front_as result ≡ number_below (2 ^ 32) text.now }
{
    let (number, rest) = number(text)?;
    Some((u32::try_from(number).ok()?, rest))
}

// A place with a word before it and a word behind it.
#[tactic(auto, unfolding(crate::specs::Front::place_between))]
pub(crate) fn place_between<'a>(
    text: &'a [u8],
    before: &[u8],
    behind: &[u8],
) -> Option<(u8, &'a [u8])>
    ensures { front_as result ≡ place_between before.now behind.now text.now }
{
    let (place, rest) = place(after(text, before)?)?;
    Some((place, after(rest, behind)?))
}
