//! [`Span`]: a number with its fraction, if any, and its unit, as read from a string.

ghost use Rattle.std.specs.Prelude.{◌≡◌, ◌≤◌, Some, option_map, chars};
ghost use Rattle.std.specs.Option.{ForSome};
ghost use Rattle.humantime.specs.Characters.{max_fraction_digits};
ghost use Rattle.humantime.specs.Durations.{scale_of_word};
ghost use Rattle.humantime.specs.PrivateTypes.{IsNumberRead};

use crate::duration::digits::Fraction;
use crate::unit::Scale;

/// The number of a span with its fraction, if any.
#[derive(Clone, Copy, Debug)]
pub(crate) struct Number<'a> {
    /// The digits, with the whitespace between and after them.
    pub text: &'a str,
    pub value: u64,
    /// The fraction and its digits, with the whitespace around them, or `None` if there is no
    /// point.
    pub fraction: Option<(Fraction, &'a str)>,
    ghost few: { ForSome fraction (λ f. f.0.exponent ≤ max_fraction_digits) },
    ghost read: { IsNumberRead text.now value fraction },
}

/// A number with its fraction, if any, and its unit, borrowed from a string.
///
/// [`spans`](crate::spans) returns an iterator over the spans of a string.
///
/// # Examples
///
/// ```
/// use humantime::spans;
///
/// let span = spans(" 1 2.5 0 h3s").next().ok_or("no span")??;
/// assert_eq!(rt; span.number(), "1 2");
/// assert_eq!(rt; span.fraction(), Some("5 0"));
/// assert_eq!(rt; span.unit(), "h");
/// assert_eq!(rt; (span.start(), span.end()), (1, 10));
/// assert_eq!(rt; span.value(), 12);
/// ```
#[derive(Clone, Copy, Debug)]
pub struct Span<'a> {
    pub(crate) unit: &'a str,
    pub(crate) scale: &'static Scale,
    pub(crate) start: usize,
    pub(crate) end: usize,
    // Last, because the tag of its fraction would otherwise be stored where the error of a `Result`
    // has its unit. LLVM would then return the `Result` in four parts.
    pub(crate) number: Number<'a>,
    ghost read: { scale_of_word (chars unit.now) ≡ Some scale.now },
}

impl<'a> Span<'a> {
    ghost use Rattle.humantime.specs.SpanResults.{span_view};

    /// Returns the integer part as written in the string, from its first to its last digit.
    ///
    /// Whitespace between the digits is included.
    ///
    /// # Examples
    ///
    /// ```
    /// use humantime::spans;
    ///
    /// let span = spans("1 2 .5h").next().ok_or("no span")??;
    /// assert_eq!(rt; span.number(), "1 2");
    /// ```
    #[tactic(auto, using(crate::proofs::Slices::end_trimmed))]
    pub fn number(&self) -> &'a str
        ensures { chars result.now ≡ (span_view self.now).number }
    {
        self.number.text.trim_end()
    }

    /// Returns the fraction as written in the string, from its first to its last digit, or `None`
    /// if there is no decimal point.
    ///
    /// Whitespace between the digits and trailing zeros are included.
    ///
    /// # Examples
    ///
    /// ```
    /// use humantime::spans;
    ///
    /// let mut items = spans("1. 5 0 h 30m");
    /// assert_eq!(rt; items.next().ok_or("no span")??.fraction(), Some("5 0"));
    /// assert_eq!(rt; items.next().ok_or("no span")??.fraction(), None);
    /// ```
    #[tactic(auto, using(crate::proofs::Slices::slice_trimmed))]
    pub fn fraction(&self) -> Option<&'a str>
        ensures { option_map (λ t. chars t.now) result ≡ (span_view self.now).fraction }
    {
        Some(self.number.fraction?.1.trim_start().trim_end())
    }

    /// Returns the unit as written in the string.
    ///
    /// # Examples
    ///
    /// ```
    /// use humantime::spans;
    ///
    /// let span = spans("37min").next().ok_or("no span")??;
    /// assert_eq!(rt; span.unit(), "min");
    /// ```
    pub fn unit(&self) -> &'a str
        ensures { chars result.now ≡ (span_view self.now).unit }
    {
        self.unit
    }

    /// Returns the byte offset in the string of the first digit.
    ///
    /// # Examples
    ///
    /// ```
    /// use humantime::spans;
    ///
    /// let span = spans(" 2h").next().ok_or("no span")??;
    /// assert_eq!(rt; span.start(), 1);
    /// ```
    pub fn start(&self) -> usize
        ensures { result ≡ (span_view self.now).start }
    {
        self.start
    }

    /// Returns the byte offset in the string after the last letter of the unit.
    ///
    /// # Examples
    ///
    /// ```
    /// use humantime::spans;
    ///
    /// let span = spans(" 2h 37min").next().ok_or("no span")??;
    /// assert_eq!(rt; span.end(), 3);
    /// ```
    pub fn end(&self) -> usize
        ensures { result ≡ (span_view self.now).end }
    {
        self.end
    }

    /// Returns the integer part as a number.
    ///
    /// # Examples
    ///
    /// ```
    /// use humantime::spans;
    ///
    /// let span = spans("1 2.5h").next().ok_or("no span")??;
    /// assert_eq!(rt; span.value(), 12);
    /// ```
    pub fn value(&self) -> u64
        ensures { result ≡ (span_view self.now).value }
    {
        self.number.value
    }
}
