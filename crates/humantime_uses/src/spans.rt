//! Callers that iterate over the spans of a string, and use what these borrow.

ghost use Rattle.std.specs.Prelude.{◌≡◌, ◌∷◌, List, Ok, Err, Option, Result, chars, flat_map, is_ok, option_map, true, IfErr, IfOk, IfSome};
ghost use Rattle.std.specs.List.{list_all};
ghost use Rattle.humantime.specs.Prelude.{AreItems, Fault, IsTiled, PointsInto, SpanView, fault_of, items_left, slices_of, text_of};
ghost use Rattle.humantime_uses.specs.SpanItems.{longest_of};

use humantime::laws::spans_tile;
use humantime::{DurationError, Span, SpanIter, StdDuration, parse_duration, spans};

/// Returns the longest span of a string, each span parsed on its own, or zero if no span is a
/// duration.
pub fn longest_span(text: &str) -> StdDuration
    ensures { (items : List (Result SpanView Fault)) × AreItems (chars text.now) items
        × (result ≡ longest_of text.now items) }
{
    let mut longest = StdDuration::ZERO;
    for item in spans(text) {
        let Ok(span) = item else { continue };
        let alone = parse_duration(&text[span.start()..span.end()]);
        longest = longest.max(alone.unwrap_or(StdDuration::ZERO));
    }
    longest
}

/// A number, a fraction, a unit, the offsets of a start and an end, and the value of the number.
pub type Parts<'a> = (&'a str, Option<&'a str>, &'a str, usize, usize, u64);

/// Returns the parts of the next item, or its error, which points into the string of the items.
pub fn next_parts<'a>(items: &mut SpanIter<'a>) -> Option<Result<Parts<'a>, DurationError<'a>>>
    ensures parts { IfSome result
        (λ item.
        IfOk item
        (λ x.
        items_left items.old
        ≡ Ok (record {
          number = chars x.0.now;
          fraction = option_map (λ t. chars t.now) x.1;
          unit = chars x.2.now;
          start = x.3;
          end = x.4;
          value = x.5;
        }) ∷ items_left items.new)) }
    ensures error { IfSome result
        (λ item.
        IfErr item
        (λ e. PointsInto (text_of items.old) e
        × (items_left items.old ≡ Err (fault_of e) ∷ items_left items.new))) }
    ensures text { text_of items.new ≡ text_of items.old }
{
    let span: Span<'a> = match items.next()? {
        Ok(span) => span,
        Err(error) => return Some(Err(error)),
    };
    Some(Ok((
        span.number(),
        span.fraction(),
        span.unit(),
        span.start(),
        span.end(),
        span.value(),
    )))
}

/// Returns two iterators over the items of a string, whose slices follow each other in the string.
///
/// Up to where the spans stop, each character lies in exactly one slice (a number, a fraction or a
/// unit), or in none and is whitespace or a point. If no item is an error, this holds for each
/// character of the string.
pub fn tiling_spans(text: &str) -> (SpanIter<'_>, SpanIter<'_>)
    ensures front { (are : AreItems (chars text.now) (items_left result.0))
        × IsTiled are.items.front (flat_map slices_of (items_left result.0)) }
    ensures whole { list_all is_ok (items_left result.0) ≡ true
        → IsTiled (chars text.now) (flat_map slices_of (items_left result.0)) }
    ensures same { items_left result.0 ≡ items_left result.1 }
{
    spans_tile(text);
    (spans(text), spans(text))
}
