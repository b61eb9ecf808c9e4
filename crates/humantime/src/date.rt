//! Parses and prints timestamps such as `2018-02-14T00:28:07Z`.

mod error;
mod parse;
mod print;

pub use error::TimestampError;
pub use parse::{parse_rfc3339, parse_rfc3339_weak};
pub use print::{
    Rfc3339Timestamp, format_rfc3339, format_rfc3339_micros, format_rfc3339_millis,
    format_rfc3339_nanos, format_rfc3339_seconds,
};
