//! Where and why a document does not contain a value, in words like those of `serde`: [`Traced`]
//! reads a value in any of its formats, and a [`Rejection`] says what is wrong. It is there for
//! `humantime_settings`, and changes with it.
//!
//! # Examples
//!
//! ```
//! use serde_trace::{Part, Traced, Unexpected};
//! use std::collections::BTreeMap;
//!
//! type Pairs = BTreeMap<String, [u8; 2]>;
//!
//! let document = "first = [1, 2]\nsecond = [3, 300]";
//! let Traced(read) = toml::from_str::<Traced<Pairs>>(rt.alloc(), document)?;
//! let rejection = read.err().ok_or("read")?;
//! assert!(rt; rejection.path.as_slice() == [1, 1].as_slice() && rejection.part == Part::Value);
//! let message = rejection.message(rt.alloc(), Unexpected::Integer(300))?;
//! assert_eq!(rt; message.as_str(), "invalid value: integer `300`, expected an integer in range");
//! ```
#![tactic(auto)]

mod rejection;
mod trace;

pub use rejection::{Cause, Part, Rejection, Unexpected};
pub use trace::Traced;
