//! Parses and prints durations such as `2h 37m`.
//!
//! The modules, each after those that it uses: `error`, `digits` (of numbers), `span`, `scan`
//! (which reads one), `iter` (all spans), `parse` (a whole string) and `print`.

mod digits;
mod error;
mod iter;
mod parse;
mod print;
mod scan;
mod span;

pub use error::DurationError;
pub use iter::SpanIter;
pub use parse::{parse_duration, spans};
pub use print::{FormattedDuration, canonical, format_duration};
pub use span::Span;
