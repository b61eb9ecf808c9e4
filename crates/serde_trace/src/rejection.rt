//! Where and why a document does not contain a value.

use serde::Kind;
use std::alloc::{AllocError, Global};
use std::fmt::{self, Display};

/// An error of a value.
#[derive(Clone, Drop)]
pub struct Rejection {
    /// For each map and sequence around it, the number of the entry or item, from 0.
    pub path: Vec<usize>,
    pub part: Part,
    pub cause: Cause,
}

impl Rejection {
    /// Returns the message, for a document that has `found` there.
    pub fn message(&self, alloc: Global, found: Unexpected<'_>) -> Result<String, AllocError> {
        let (name, len) = match found {
            Unexpected::Str(text) => (text, 0),
            Unexpected::Seq(len) => ("", len),
            _ => ("", 0),
        };
        match &self.cause {
            Cause::Message(said) if said.is_empty() => String::from_str(alloc, "invalid value"),
            Cause::Message(said) => String::from_str(alloc, said),
            Cause::Missing(key) => format!(in alloc; "missing field `{key}`"),
            Cause::Duplicate => format!(in alloc; "duplicate field `{name}`"),
            Cause::UnknownField(expected) => format!(in alloc; "unknown field `{name}`{expected}"),
            Cause::UnknownVariant(expected) => {
                format!(in alloc; "unknown variant `{name}`{expected}")
            }
            Cause::Length => format!(in alloc; "invalid length {len}"),
            Cause::Long(size) => {
                format!(in alloc; "invalid length {len}, expected a tuple of size {size}")
            }
            Cause::Range => {
                format!(in alloc; "invalid value: {found}, expected an integer in range")
            }
            Cause::Expected(kind, expected) => {
                let (what, more) = match kind {
                    _ if !found.is(*kind) => ("type", ""),
                    Kind::Signed => ("value", " in range"),
                    _ => ("value", ""),
                };
                format!(in alloc; "invalid {what}: {found}, expected {expected}{more}")
            }
        }
    }
}

/// The part of an entry or item that an error is about.
#[derive(Clone, Copy, PartialEq, Eq, Drop)]
pub enum Part {
    Key,
    Value,
    /// The end of the value, where something is missing.
    End,
}

/// Why a value is rejected.
#[derive(Clone, Drop)]
pub enum Cause {
    /// The type says this, or nothing.
    Message(String),
    /// A value of this kind is expected, of which the type may not contain each.
    Expected(Kind, String),
    /// It is an integer that the type does not contain.
    Range,
    /// This key is missing.
    Missing(String),
    Duplicate,
    /// What is said after the name of the field.
    UnknownField(String),
    /// What is said after the name of the variant.
    UnknownVariant(String),
    /// A sequence has another number of items.
    Length,
    /// A tuple of this size has more items.
    Long(usize),
}

/// What a document has where an error is.
#[derive(Clone, Copy)]
pub enum Unexpected<'a> {
    /// A string or a key.
    Str(&'a str),
    Integer(i64),
    Float(f64),
    /// A number, as it is written.
    Number(&'a str),
    Bool(bool),
    Null,
    Datetime,
    /// A sequence, and how many items it has, if this is asked for.
    Seq(usize),
    Map,
}

impl Unexpected<'_> {
    /// Returns whether it is a value of this kind.
    fn is(self, kind: Kind) -> bool {
        match (kind, self) {
            // To `serde_json`, -0 is a float.
            (Kind::Signed, Unexpected::Number(digits)) => {
                digits != "-0" && !digits.contains(['.', 'e', 'E'])
            }
            (Kind::Signed, Unexpected::Integer(_))
            | (Kind::Float, Unexpected::Float(_) | Unexpected::Number(_))
            | (Kind::Str, Unexpected::Str(_))
            | (Kind::Bytes, Unexpected::Seq(_)) => true,
            _ => false,
        }
    }
}

/// Writes what `serde` calls it.
impl Display for Unexpected<'_> {
    fn fmt<W: fmt::Write>(&self, f: &mut fmt::Formatter<W>) -> fmt::Result {
        match self {
            Unexpected::Str(text) => write!(f, "string {text:?}"),
            Unexpected::Integer(n) => write!(f, "integer `{n}`"),
            Unexpected::Float(x) => write!(f, "floating point `{x:?}`"),
            Unexpected::Number(n) if self.is(Kind::Signed) => write!(f, "integer `{n}`"),
            Unexpected::Number(x) => write!(f, "floating point `{x}`"),
            Unexpected::Bool(b) => write!(f, "boolean `{b}`"),
            Unexpected::Null => f.write_str("null"),
            Unexpected::Datetime => f.write_str("datetime"),
            Unexpected::Seq(_) => f.write_str("sequence"),
            Unexpected::Map => f.write_str("map"),
        }
    }
}
