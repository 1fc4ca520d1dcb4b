// The call at the front of a text, in words and in the short form.
ghost use Rattle.std.specs.Prelude.{◌≡◌, [], codes};
ghost use Rattle.std.specs.Option.{option_copied};
ghost use Rattle.notation.specs.Front.{after as what_follows, front_as};
ghost use Rattle.notation.specs.Calls.{arriving, opening, placed, shortened, turning, worded};
ghost use Rattle.record.specs.declared.call.Call.TheVariants.{Bad, Close, Good};
ghost use Rattle.notation.specs.Words.{price_words};

use crate::front::{after, length, place_between, value};
use itoa::Buffer;
use record::Call;
use tariff::Rate;

fn turn<'a>(text: &'a [u8], word: &[u8]) -> Option<(Call, &'a [u8])>
    ensures { front_as result ≡ turning word.now text.now }
{
    Some((Call::Turn, after(text, word)?))
}

// What follows the words for what a rate costs.
fn after_price(text: &[u8], rate: u32) -> Option<&[u8]>
    ensures { option_copied result ≡ what_follows (price_words rate) text.now }
{
    match Rate::try_from(rate) {
        Ok(booked) => {
            let rest = after(text, b", price ")?;
            after(rest, Buffer::new().format(booked.price()).as_bytes())
        }
        Err(_) => after(text, b", which is not in the tariff"),
    }
}

#[tactic(auto, unfolding(crate::specs::Calls::opening))]
fn opening_in_words(text: &[u8]) -> Option<(Call, &[u8])>
    ensures { front_as result
        ≡ opening (codes "place ") (codes " opens at rate ") price_words text.now }
{
    let (place, rest) = place_between(text, b"place ", b" opens at rate ")?;
    let (rate, rest) = value(rest)?;
    Some((Call::Open { place, rate }, after_price(rest, rate)?))
}

#[tactic(auto, unfolding(crate::specs::Calls::opening))]
fn short_opening(text: &[u8]) -> Option<(Call, &[u8])>
    ensures { front_as result ≡ opening (codes "O ") (codes " ") (λ _. codes "") text.now }
{
    let (place, rest) = place_between(text, b"O ", b" ")?;
    let (rate, rest) = value(rest)?;
    Some((Call::Open { place, rate }, rest))
}

fn closing<'a>(text: &'a [u8], before: &[u8], behind: &[u8]) -> Option<(Call, &'a [u8])>
    ensures { front_as result ≡ placed Close before.now behind.now text.now }
{
    let (place, rest) = place_between(text, before, behind)?;
    Some((Call::Close { place }, rest))
}

fn good<'a>(text: &'a [u8], before: &[u8], behind: &[u8]) -> Option<(Call, &'a [u8])>
    ensures { front_as result ≡ placed Good before.now behind.now text.now }
{
    let (place, rest) = place_between(text, before, behind)?;
    Some((Call::Good { place }, rest))
}

fn bad<'a>(text: &'a [u8], before: &[u8], behind: &[u8]) -> Option<(Call, &'a [u8])>
    ensures { front_as result ≡ placed Bad before.now behind.now text.now }
{
    let (place, rest) = place_between(text, before, behind)?;
    Some((Call::Bad { place }, rest))
}

#[tactic(auto, unfolding(crate::specs::Calls::arriving))]
fn arrival<'a>(
    text: &'a [u8],
    before: &[u8],
    behind: &[u8],
    between: &[u8],
) -> Option<(Call, &'a [u8])>
    ensures { front_as result ≡ arriving before.now behind.now between.now text.now }
{
    let (place, rest) = place_between(text, before, behind)?;
    let (length, rest) = length(rest)?;
    let (tag, rest) = value(after(rest, between)?)?;
    Some((Call::Arrive { place, length, tag }, rest))
}

// The call in words at the front of a text, and what follows it.
pub(crate) fn call_in_words(text: &[u8]) -> Option<(Call, &[u8])>
    ensures { front_as result ≡ worded text.now }
{
    turn(text, b"a turn")
        .or(opening_in_words(text))
        .or(closing(text, b"place ", b" closes"))
        .or(arrival(text, b"place ", b" offers a frame of ", b" bytes, tag "))
        .or(good(text, b"the channel of place ", b" is good"))
        .or(bad(text, b"the channel of place ", b" is bad"))
}

// The call in the short form at the front of a text, and what follows it.
pub(crate) fn short_call(text: &[u8]) -> Option<(Call, &[u8])>
    ensures { front_as result ≡ shortened text.now }
{
    turn(text, b"T")
        .or(short_opening(text))
        .or(closing(text, b"C ", b""))
        .or(arrival(text, b"A ", b" ", b" "))
        .or(good(text, b"G ", b""))
        .or(bad(text, b"B ", b""))
}
