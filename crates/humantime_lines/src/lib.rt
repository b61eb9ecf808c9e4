//! An error of a parser, printed with the line of the string in which it is, and carets below what
//! is wrong.
//!
//! [`Report`] writes the message, the line and the carets, for any error with a range of bytes.
//! [`MarkedLine`] writes the line and the carets, and [`Escaped`] a string that does not control
//! the terminal.
//!
//! # Examples
//!
//! ```
//! use humantime_lines::Report;
//!
//! let text = "[log]\nlevel = hgih";
//! let report = Report::new("no such level", text, 14..18);
//! let lines = "line 2: no such level\n  level = hgih\n          ^^^^";
//! assert_eq!(rt; report.to_string(rt.alloc())?.as_str(), lines);
//! ```
#![tactic(auto)]

mod caret_line;
mod escaped;
mod line;
mod marked_line;
mod report;
mod window;

pub use escaped::Escaped;
pub use marked_line::MarkedLine;
pub use report::Report;
