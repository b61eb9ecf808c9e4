//! Reads the parts of a span, such as `1.5d`: its number, point, fraction and word; and then a
//! [`Span`].
//!
//! A `read_..` function returns a value and the rest of the string, a `skip_..` function only the
//! rest, or the next offset if it takes one. In contracts, `IsTail text rest` says that `rest` is
//! the end of `text`.

ghost use Rattle.std.specs.Prelude.{◌≡◌, ◌==◌, ◌+◌, ◌++◌, ◌<◌, ◌&&◌, ◌||◌, true, chars, option_map, IfSome, ◌≢◌};
ghost use Rattle.std.specs.Prelude.{IfOk, MatchResult, length, drop, IsCharBoundary};
ghost use Rattle.humantime.specs.Characters.{begins, drop_while, is_digit, is_letter, is_whitespace, offset_of, take_while};
ghost use Rattle.humantime.specs.DurationErrors.{IsCharStartIn, after_point, PointsInto};
ghost use Rattle.humantime.specs.PrivateFunctions;
ghost use Rattle.humantime.specs.PrivateFunctions.{IsAfterWhitespace, IsNumberAt, number_view, read_view, read_span_view};
ghost use Rattle.humantime.specs.PrivateTypes.{IsTail, fraction_view};
ghost use Rattle.humantime.specs.SpanResults.{IsSpanIn};
ghost use Rattle.humantime.specs.Walks.{at_letter_or_end};

use crate::duration::digits::{Fraction, push_digit};
use crate::duration::error::DurationError;
use crate::duration::span::{Number, Span};
use crate::unit::scale_of;

/// Returns `true` if the two bytes encode `µ` (U+00B5) or `μ` (U+03BC), the only letters outside
/// ASCII in the words of units.
#[inline(always)]
fn is_mu(first: u8, second: u8) -> bool
    ensures { result ≡ ((first == 0xc2 && second == 0xb5) || (first == 0xce && second == 0xbc)) }
{
    // A `match` of the pair keeps the loop over digits in registers, which comparisons joined by
    // `&&` and `||` do not.
    matches!((first, second), (0xc2, 0xb5) | (0xce, 0xbc))
}

/// The slow path of [`skip_whitespace_char`], for characters outside ASCII.
///
/// It is cold and not inlined, so that loops over ASCII keep their variables in registers.
#[cold]
#[inline(never)]
#[tactic(auto, using(crate::proofs::Offsets::chars_at, crate::proofs::Characters::whitespace_is))]
fn skip_non_ascii_whitespace(text: &str, at: usize) -> Option<usize>
    requires { IsCharStartIn text.now at }
    ensures { IsAfterWhitespace text.now at result }
{
    let c = text[at..].chars().next()?;
    c.is_whitespace().then_some(at + c.len_utf8())
}

/// Returns the offset after the whitespace character at offset `at`, or `None` if the character
/// there is not whitespace.
///
/// A character must begin at `at`, so `at` is less than the length of the string.
#[inline(always)]
#[tactic(auto, using(crate::proofs::Offsets::whitespace_at))]
fn skip_whitespace_char(text: &str, at: usize) -> Option<usize>
    requires { IsCharStartIn text.now at }
    ensures { IsAfterWhitespace text.now at result }
{
    let bytes = text.as_bytes();
    // The byte is usually an ASCII letter. No character from `!` to U+007F is whitespace. This test
    // saves a tenth of the instructions.
    if bytes[at] > b' ' && bytes[at] < 0x80 {
        return None;
    }
    if bytes[at] < 0x80 {
        // U+000B is whitespace, too, which `is_ascii_whitespace` lacks.
        let is_whitespace = bytes[at] == b' ' || bytes[at] >= b'\t' && bytes[at] <= b'\r';
        return is_whitespace.then_some(at + 1);
    }
    // A mu is not whitespace. Without this test, `µs` would call the cold function, and take a
    // tenth more instructions.
    if at + 1 < bytes.len() && is_mu(bytes[at], bytes[at + 1]) {
        return None;
    }
    skip_non_ascii_whitespace(text, at)
}

/// Returns what follows the whitespace at the start of the string, if any.
#[inline(always)]
#[tactic(auto, using(crate::proofs::Offsets::first))]
pub(crate) fn skip_whitespace(text: &str) -> &str
    ensures read { chars result.now ≡ drop_while is_whitespace (chars text.now) }
    ensures rest { IsTail text.now result.now }
{
    // Usually a digit is first, because `skip_span_end` has skipped the space before it. This test
    // saves a twentieth of the instructions.
    if begins_with_digit(text) {
        return text;
    }
    let mut at = 0;
    while at < text.len()
        && let Some(next) = skip_whitespace_char(text, at)
    {
        at = next;
    }
    &text[at..]
}

/// Returns `true` if the string begins with an ASCII digit.
#[inline(always)]
#[tactic(auto, using(crate::proofs::Offsets::first))]
fn begins_with_digit(text: &str) -> bool
    ensures { result ≡ begins is_digit (chars text.now) }
{
    let bytes = text.as_bytes();
    !bytes.is_empty() && bytes[0].is_ascii_digit()
}

/// Reads the digits at the start of the string, with the whitespace between and after them. Returns
/// the number and the rest, or `None` if its value does not fit in a `u64`. The string must begin
/// with a digit.
#[inline(always)]
#[tactic(auto, using(crate::proofs::SpanParts::numbers))]
fn read_number(text: &str) -> Option<(Number<'_>, &str)>
    requires { begins is_digit (chars text.now) ≡ true }
    ensures read { read_view number_view result ≡ PrivateFunctions.read_number (chars text.now) }
    ensures rest { IfSome result (λ x. IsTail text.now x.1.now) }
{
    let bytes = text.as_bytes();
    // The string begins with a digit. A loop from the first byte on takes an eighth more
    // instructions.
    let mut value = (bytes[0] - b'0') as u64;
    let mut at = 1;
    while at < bytes.len() {
        if bytes[at].is_ascii_digit() {
            value = push_digit(value, bytes[at])?;
            at += 1;
        } else if let Some(next) = skip_whitespace_char(text, at) {
            at = next;
        } else {
            break;
        }
    }
    let number = Number {
        text: &text[..at],
        value,
        fraction: None,
    };
    Some((number, &text[at..]))
}

/// Returns what follows the decimal point at the start of the string, or `None` if there is no
/// point.
#[inline(always)]
#[tactic(auto, using(crate::proofs::Offsets::first), unfolding(crate::specs::Characters::is_point))]
fn skip_point(text: &str) -> Option<&str>
    ensures read { option_map (λ t. chars t.now) result ≡ after_point (chars text.now) }
    ensures rest { IfSome result (λ t. IsTail text.now t.now) }
{
    if text.is_empty() || text.as_bytes()[0] != b'.' {
        return None;
    }
    Some(&text[1..])
}

/// Reads the digits of a fraction at the start of the string, if any, with the whitespace around
/// and between them. Returns the fraction with this part of the string, and the rest, or `None` if
/// there are more than 19 digits before the trailing zeros.
#[inline(always)]
#[tactic(auto, using(crate::proofs::SpanParts::fraction_digits))]
fn read_fraction(text: &str) -> Option<((Fraction, &str), &str)>
    ensures read { read_view fraction_view result
        ≡ PrivateFunctions.read_fraction (chars text.now) }
    ensures rest { IfSome result (λ x. IsTail text.now x.1.now) }
{
    let bytes = text.as_bytes();
    let mut fraction = Fraction::default();
    let mut at = 0;
    while at < bytes.len() {
        if bytes[at].is_ascii_digit() {
            fraction = fraction.push(bytes[at])?;
            at += 1;
        } else if let Some(next) = skip_whitespace_char(text, at) {
            at = next;
        } else {
            break;
        }
    }
    Some(((fraction, &text[..at]), &text[at..]))
}

/// Returns the letters (ASCII, `µ` or `μ`) at the start of the string, if any, and the rest.
#[inline(always)]
#[tactic(auto, using(crate::proofs::Offsets::letters))]
fn read_word(text: &str) -> (&str, &str)
    ensures word { chars result.0.now ≡ take_while is_letter (chars text.now) }
    ensures read { chars result.1.now ≡ drop_while is_letter (chars text.now) }
    ensures whole { text.now ≡ result.0.now ++ result.1.now }
    ensures rest { IsTail text.now result.1.now }
{
    let bytes = text.as_bytes();
    let mut at = 0;
    while at < bytes.len() {
        // `>= 0x80` is tested first, so that an ASCII character that ends the word costs one test.
        if bytes[at].is_ascii_alphabetic() {
            at += 1;
        } else if bytes[at] >= 0x80 && at + 1 < bytes.len() && is_mu(bytes[at], bytes[at + 1]) {
            at += 2;
        } else {
            break;
        }
    }
    (&text[..at], &text[at..])
}

/// Returns `true` if a fraction has no digits, and a letter or the end of the string follows its
/// point.
#[inline(always)]
#[tactic(auto, using(crate::proofs::Offsets::rests))]
fn is_bare_point(fraction: Fraction, rest: &str) -> bool
    ensures { result ≡ (fraction.len == 0 && at_letter_or_end (chars rest.now)) }
{
    fraction.len == 0 && (rest.is_empty() || !read_word(rest).0.is_empty())
}

/// Takes the string after the word of a span, and returns it without the whitespace character at
/// its start, if any. Returns `None` if it begins with a character other than whitespace or a
/// digit, before which a word may not end.
///
/// Only one character is skipped, since there is usually only one before the next digit.
/// `skip_whitespace` skips the others.
#[inline(always)]
#[tactic(auto, using(crate::proofs::Offsets::span_ends))]
fn skip_span_end(text: &str) -> Option<&str>
    ensures read { option_map (λ t. chars t.now) result
        ≡ PrivateFunctions.skip_span_end (chars text.now) }
    ensures rest { IfSome result (λ t. IsTail text.now t.now) }
{
    // The end of the string or a space follows most words. The test for a space saves a twentieth
    // of the instructions.
    if text.is_empty() {
        return Some(text);
    }
    if text.as_bytes()[0] == b' ' {
        return Some(&text[1..]);
    }
    if begins_with_digit(text) {
        return Some(text);
    }
    let len = skip_whitespace_char(text, 0)?;
    Some(&text[len..])
}

/// A span and the string after it, or the error of the first check that fails.
type ReadSpan<'a> = Result<(Span<'a>, &'a str), DurationError<'a>>;

/// Returns the offset in the string at which `rest`, its unread end, begins.
#[inline(always)]
#[tactic(auto, using(crate::proofs::Offsets::tail_offset))]
fn offset_in(text: &str, rest: &str) -> usize
    requires { IsTail text.now rest.now }
    ensures offset { result ≡ offset_of (chars text.now) (chars rest.now) }
    ensures place { IsCharBoundary text.now result }
    ensures tail { rest.now ≡ drop result text.now }
    ensures len { result + length rest.now ≡ length text.now }
{
    text.len() - rest.len()
}

/// Reads the span at the start of `rest`, which is the unread end of `text` and not empty. Offsets
/// are those in `text`.
#[inline(always)]
#[tactic(auto, using(crate::proofs::Offsets::offsets), unfolding(crate::specs::Walks::fault_at))]
pub(crate) fn read_span<'a>(text: &'a str, rest: &'a str) -> ReadSpan<'a>
    requires tail { IsTail text.now rest.now }
    requires nonempty { length rest.now ≢ 0 }
    ensures read { read_span_view result
        ≡ PrivateFunctions.read_span (chars text.now) (chars rest.now) }
    ensures rest { IfOk result (λ x. IsTail text.now x.1.now) }
    ensures offsets { MatchResult result (λ x. IsSpanIn text.now x.0) (PointsInto text.now) }
{
    if !begins_with_digit(rest) {
        return Err(DurationError::NumberExpected(offset_in(text, rest)));
    }
    let Some((number, after_number)) = read_number(rest) else {
        return Err(DurationError::NumberOverflow);
    };
    // `complete_span` is inlined twice, so that a span without a fraction needs no registers for
    // one: 0.93 of the instructions.
    let Some(after_point) = skip_point(after_number) else {
        return complete_span(text, rest, number, after_number);
    };
    let Some((fraction, after_fraction)) = read_fraction(after_point) else {
        return Err(DurationError::NumberOverflow);
    };
    // The error of `1.s~` and of `1.` is at the point, but that of `1.~` at the `~`.
    if is_bare_point(fraction.0, after_fraction) {
        return Err(DurationError::InvalidCharacter(offset_in(text, after_number)));
    }
    let number = Number {
        text: number.text,
        value: number.value,
        fraction: Some(fraction),
    };
    complete_span(text, rest, number, after_fraction)
}

/// Reads the unit after a number and its fraction, if any, and returns the result of [`read_span`].
/// The number was read from the start of `rest`, and `after_digits` follows it and its fraction.
#[inline(always)]
#[tactic(auto, using(crate::proofs::SpanParts::spans), unfolding(crate::specs::Walks::fault_at))]
fn complete_span<'a>(
    text: &'a str,
    rest: &'a str,
    number: Number<'a>,
    after_digits: &'a str,
) -> ReadSpan<'a>
    requires tail { IsTail text.now rest.now }
    requires number { IsNumberAt rest.now number after_digits.now }
    ensures read { read_span_view result
        ≡ PrivateFunctions.read_span (chars text.now) (chars rest.now) }
    ensures rest { IfOk result (λ x. IsTail text.now x.1.now) }
    ensures offsets { MatchResult result (λ x. IsSpanIn text.now x.0) (PointsInto text.now) }
{
    let (unit, after_word) = read_word(after_digits);
    // `1foo~` is wrong at the `~`, so what follows the word is tested before the word.
    let Some(after_span) = skip_span_end(after_word) else {
        return Err(DurationError::InvalidCharacter(offset_in(text, after_word)));
    };
    let end = offset_in(text, after_word);
    let Some(scale) = scale_of(unit) else {
        return Err(DurationError::UnknownUnit {
            start: offset_in(text, after_digits),
            end,
            unit,
            value: number.value,
        });
    };
    let span = Span {
        number,
        unit,
        scale,
        start: offset_in(text, rest),
        end,
    };
    Ok((span, after_span))
}
