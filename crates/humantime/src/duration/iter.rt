//! [`SpanIter`], the iterator over the spans of a string.

ghost use Rattle.std.proofs.Props.{props};
ghost use Rattle.humantime.specs.PrivateTypes.{IsTail};

use crate::duration::error::DurationError;
use crate::duration::scan::{read_span, skip_whitespace};
use crate::duration::span::Span;

/// An iterator over the spans of a string, from left to right, and then the error at which they
/// end, if any.
///
/// It is returned by [`spans`](crate::spans). After an error or the end of the string, `next`
/// always returns `None`. The offsets of a span or an error lie on `char` boundaries of the string.
///
/// The clause `next_gives` is the contract of `next`: a call returns the first of the remaining
/// items and leaves the others, or returns `None` if none remains. The string stays the same.
///
/// # Examples
///
/// ```
/// use humantime::{DurationError, spans};
///
/// let mut items = spans("2h 37min x");
/// assert_eq!(rt; items.next().ok_or("no span")??.unit(), "h");
/// assert_eq!(rt; items.next().ok_or("no span")??.unit(), "min");
/// assert!(rt; matches!(items.next(), Some(Err(DurationError::NumberExpected(9)))));
/// assert!(rt; items.next().is_none());
/// ```
#[derive(Drop)]
pub struct SpanIter<'a> {
    /// The whole string.
    pub(crate) text: &'a str,
    /// The part at the end of `text` that has not been read.
    pub(crate) rest: &'a str,
    /// Whether an error or the end of the string has been returned.
    pub(crate) ended: bool,
    // `by` proves that two iterators are equal if their other fields are, whatever proofs they hold
    // here.
    ghost tail: { IsTail text.now rest.now } by { Prim.hlevel props },
}

impl<'a> Iterator for SpanIter<'a> {
    type Item = Result<Span<'a>, DurationError<'a>>;

    ghost use Rattle.std.specs.Iterator.{item_count};
    ghost use Rattle.humantime.specs.SpanResults.{items_left, GivesItem};

    ghost next_gives = { GivesItem };

    // The number of items that are left, by which a loop over the iterator ends.
    ghost remaining = { item_count items_left };

    #[inline(always)]
    #[tactic(auto, using(crate::proofs::Items::next_item))]
    fn next(&mut self) -> Option<Result<Span<'a>, DurationError<'a>>> {
        if self.ended {
            return None;
        }
        let rest = skip_whitespace(self.rest);
        if rest.is_empty() {
            self.ended = true;
            // If `rest` is still the whole string, no span has been read, so the string is empty or
            // only whitespace.
            let is_blank = self.rest.len() == self.text.len();
            return is_blank.then_some(Err(DurationError::Empty));
        }
        match read_span(self.text, rest) {
            Ok((span, after_span)) => {
                self.rest = after_span;
                Some(Ok(span))
            }
            Err(e) => {
                self.ended = true;
                Some(Err(e))
            }
        }
    }
}
