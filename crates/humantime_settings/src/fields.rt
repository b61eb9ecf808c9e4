//! Fields and items that are written as strings.

ghost use Rattle.std.specs.Prelude.{◌≡◌, List, ℕ, Ok, OnOk, IfOk, IfErr, chars};
ghost use Rattle.std.specs.Duration.{as_nanos};
ghost use Rattle.serde.specs.Event.{Logs, text};
ghost use Rattle.serde.specs.Steps.{Gives};
ghost use Rattle.humantime.specs.Prelude.{IsPrinted, duration_answer, duration_text, places_of, weak_answer};
ghost use Rattle.humantime_settings.specs.Texts.{AreEntries, AreTexts, Form, IsMapFrom, IsText};
ghost use Rattle.humantime_settings.specs.Texts.{IsTextOrNothing, Reads, WritesOne};

use crate::error_range::Message;
use humantime::laws::printed_moment_reads;
use humantime::{
    Duration, StdDuration, SystemTime, Timestamp, format_duration, format_rfc3339, parse_duration,
    parse_rfc3339_weak,
};
use humantime_std::StdDurationExt;
use serde::{
    Described, Deserialize, DeserializeOwned, Deserializer, Format, Serialize, Serializer,
};
use std::alloc::Global;
use std::collections::BTreeMap;
use std::time;

/// Writes a field as the canonical string of its value, or as no value if it is `None`, such as
/// `null` in JSON. A list or a map is written with such a string for each of its values. What is
/// written is read back as the same value.
///
/// The derive of `Serialize` calls it for a field with `#[serde(with = "humantime_settings")]`.
///
/// # Errors
///
/// Returns an error of the format if a timestamp is not from 1970 to 9999, if the format cannot
/// write the string, or if an allocation fails.
///
/// # Examples
///
/// ```
/// use humantime::StdDuration;
/// use serde::Serialize;
///
/// #[derive(Drop, Serialize)]
/// struct Pause {
///     #[serde(serialize_with = "humantime_settings::serialize")]
///     wait: StdDuration,
/// }
///
/// fn main(rt: HostRuntime) -> serde_json::Result<()> {
///     let text = serde_json::to_string(rt.alloc(), &Pause { wait: StdDuration::from_secs(90) })?;
///     assert_eq!(rt; text.as_str(), r#"{"wait":"1m 30s"}"#);
///     Ok(())
/// }
/// ```
pub fn serialize<T: Field, S: Serializer>(value: &T, out: &mut S) -> Result<(), S::Error>
    ensures { OnOk result (WritesOne (T.IsWrittenAs value.now) (T.IsReadFrom value.now)
        (S.written out.old) (S.written out.new)) }
{
    value.write(out)
}

/// Reads a field from a string, which `parse_duration` or `parse_rfc3339_weak` of `humantime`
/// parses, or from a list or a map of such strings. An `Option` is `None` if the format has no
/// value there. Of equal keys of a map, the last one counts.
///
/// The derive of `Deserialize` calls it for a field with `#[serde(with = "humantime_settings")]`.
///
/// # Errors
///
/// Returns an error of the format, with the message
///
/// - `expected a duration in quotes` or `expected a timestamp in quotes` if there is no string;
/// - of `humantime` if the string is no duration or timestamp;
/// - of the format if there is no list or map, or if an allocation fails.
///
/// The message is cut at 80 bytes, and by some formats sooner; [`from_json`](crate::from_json) and
/// [`from_toml`](crate::from_toml) have the whole.
///
/// # Examples
///
/// ```
/// use humantime::StdDuration;
/// use serde::Deserialize;
///
/// #[derive(Drop, Deserialize)]
/// struct Pause {
///     #[serde(deserialize_with = "humantime_settings::deserialize")]
///     wait: StdDuration,
/// }
///
/// fn main(rt: HostRuntime) -> serde_json::Result<()> {
///     let pause: Pause = serde_json::from_str(rt.alloc(), r#"{"wait":"1.5min"}"#)?;
///     assert_eq!(rt; pause.wait, StdDuration::from_secs(90));
///     Ok(())
/// }
/// ```
pub fn deserialize<'de, T: Field, F: Format>(
    alloc: Global,
    from: &mut Deserializer<'de, '_, F>,
) -> Result<T, F::Error>
    ensures { IfOk result (λ v. (form : Form) × T.IsReadFrom v form
        × Reads F.gives F.stays form from.old from.new) }
{
    T::read(alloc, from)
}

/// A duration or a timestamp, or an `Option`, a `Vec` or a map of these, which settings hold as
/// strings.
///
/// The types are `StdDuration`, `SystemTime`, `Duration` and `Timestamp` of `humantime`, `Duration`
/// of std, and `Option`, `Vec` and `BTreeMap` with `String` keys of each. The attribute
/// `#[serde(with = "humantime_settings")]` marks a field of such a type, and [`AsText`] wraps any
/// other value of one. No other type can implement the trait.
///
/// # Examples
///
/// ```
/// use humantime::{StdDuration, UNIX_EPOCH};
/// use humantime_settings::{AsText, Field};
/// use std::alloc::Global;
///
/// /// Returns a value as a string in JSON.
/// fn json<T: Field>(alloc: Global, value: T) -> serde_json::Result<String> {
///     serde_json::to_string(alloc, &AsText(value))
/// }
///
/// assert_eq!(rt; json(rt.alloc(), UNIX_EPOCH)?.as_str(), "\"1970-01-01T00:00:00Z\"");
/// assert_eq!(rt; json(rt.alloc(), None::<StdDuration>)?.as_str(), "null");
/// ```
pub trait Field: Value {}

impl<T: Value> Field for T {}

/// What a field does. No other crate can name this trait.
trait Value: Sized + Drop {
    // The value is written in this form.
    ghost IsWrittenAs: { Self → Form → Type 0 };

    // The value is read from this form.
    ghost IsReadFrom: { Self → Form → Type 0 };

    /// Writes the value, as [`serialize`] does.
    fn write<S: Serializer>(&self, out: &mut S) -> Result<(), S::Error>
        ensures { OnOk result (WritesOne (IsWrittenAs self.now) (IsReadFrom self.now)
            (S.written out.old) (S.written out.new)) };

    /// Reads a value, as [`deserialize`] does.
    fn read<F: Format>(alloc: Global, from: &mut Deserializer<'_, '_, F>) -> Result<Self, F::Error>
        ensures { IfOk result (λ v. (form : Form) × IsReadFrom v form
            × Reads F.gives F.stays form from.old from.new) };
}

/// A wrapper for the keys of a map, the items of other collections, or a whole document: it is
/// written and read as a field is.
///
/// # Examples
///
/// ```
/// use humantime::StdDuration;
/// use humantime_settings::{AsText, from_json};
/// use std::collections::BTreeMap;
///
/// let waits: Vec<AsText<StdDuration>> = from_json(rt.alloc(), r#"["1s", "1m 30s"]"#)?;
/// assert_eq!(rt; waits.get(1), Some(&AsText(StdDuration::from_secs(90))));
/// assert!(rt; waits.first() < waits.last());
///
/// let counts: BTreeMap<AsText<StdDuration>, u32> = from_json(rt.alloc(), r#"{"60s": 7}"#)?;
/// assert_eq!(rt; counts.get(&AsText(StdDuration::from_secs(60))), Some(&7));
/// ```
#[derive(Clone, Copy, PartialEq, Eq, PartialOrd, Ord, Hash, Default, Debug, Drop)]
pub struct AsText<T>(pub T);

impl<T: Field> Described for AsText<T> {
    ghost writes = { λ v. WritesOne (T.IsWrittenAs v.0) (T.IsReadFrom v.0) };
}

impl<T: Field> Serialize for AsText<T> {
    fn serialize<S: Serializer>(&self, out: &mut S) -> Result<(), S::Error> {
        self.0.write(out)
    }
}

impl<'de, T: Field> Deserialize<'de> for AsText<T> {
    fn deserialize<F: Format>(
        alloc: Global,
        from: &mut Deserializer<'de, '_, F>,
    ) -> Result<Self, F::Error> {
        Ok(AsText(T::read(alloc, from)?))
    }
}

impl<T: Field> DeserializeOwned for AsText<T> {
    fn deserialize_owned<F: Format>(
        alloc: Global,
        from: &mut Deserializer<'_, '_, F>,
    ) -> Result<Self, F::Error> {
        Ok(AsText(T::read(alloc, from)?))
    }
}

/// A value with a canonical string.
trait Text: Sized + Drop {
    // This is the canonical string of the value.
    ghost IsPrintedAs: { Self → List ℕ → Type 0 };

    // The value is parsed from this string.
    ghost IsParsedFrom: { Self → List ℕ → Type 0 };

    /// Writes the canonical string, from which the value is parsed again.
    fn write_text<S: Serializer>(&self, out: &mut S) -> Result<(), S::Error>
        ensures { OnOk result ((t : List ℕ) × IsPrintedAs self.now t × IsParsedFrom self.now t
            × Logs (S.written out.old) (S.written out.new) (text t)) };

    /// What is said of a value that is no string, in the 32 bytes that `serde_json` keeps.
    const WANTED: &'static str = "expected a duration in quotes";

    /// Parses a string, or returns the message of the error.
    fn parse_text(text: &str) -> Result<Self, Message>
        ensures value { IfOk result (λ v. IsParsedFrom v text.now) }
        ensures refused { IfErr result (λ _. (v : Self) → ¬ IsParsedFrom v text.now) };
}

impl<T: Text> Value for T {
    ghost IsWrittenAs = { IsText T.IsPrintedAs };

    ghost IsReadFrom = { IsText T.IsParsedFrom };

    fn write<S: Serializer>(&self, out: &mut S) -> Result<(), S::Error> {
        self.write_text(out)
    }

    fn read<F: Format>(alloc: Global, from: &mut Deserializer<'_, '_, F>) -> Result<T, F::Error> {
        read_text(alloc, from)
    }
}

impl<T: Text> Value for Option<T> {
    ghost IsWrittenAs = { IsTextOrNothing T.IsPrintedAs };

    ghost IsReadFrom = { IsTextOrNothing T.IsParsedFrom };

    fn write<S: Serializer>(&self, out: &mut S) -> Result<(), S::Error> {
        match self {
            Some(value) => value.write(out),
            None => out.unit(),
        }
    }

    fn read<F: Format>(
        alloc: Global,
        from: &mut Deserializer<'_, '_, F>,
    ) -> Result<Self, F::Error> {
        if from.take_none()? {
            return Ok(None);
        }
        Ok(Some(read_text(alloc, from)?))
    }
}

impl<T: Text> Value for Vec<T> {
    ghost IsWrittenAs = { λ list. AreTexts T.IsPrintedAs list.items };

    ghost IsReadFrom = { λ list. AreTexts T.IsParsedFrom list.items };

    fn write<S: Serializer>(&self, out: &mut S) -> Result<(), S::Error> {
        out.begin_seq(Some(self.len()))?;
        for item in self {
            item.write_text(out)?;
        }
        out.end_seq()
    }

    fn read<F: Format>(
        alloc: Global,
        from: &mut Deserializer<'_, '_, F>,
    ) -> Result<Self, F::Error> {
        from.begin_seq()?;
        let mut items = Vec::new(alloc);
        for _ in 0..u64::MAX {
            if !from.next_item()? {
                return Ok(items);
            }
            let Ok(()) = items.push(read_text(alloc, from)?) else {
                return Err(from.no_memory());
            };
        }
        Err(from.wrong_len())
    }
}

impl<T: Text> Value for BTreeMap<String, T> {
    ghost IsWrittenAs = { λ map. AreEntries T.IsPrintedAs map.entries };

    ghost IsReadFrom = { IsMapFrom T.IsParsedFrom };

    fn write<S: Serializer>(&self, out: &mut S) -> Result<(), S::Error> {
        out.begin_map(Some(self.len()))?;
        for (key, value) in self {
            out.begin_key()?;
            out.str(key)?;
            out.end_key()?;
            value.write_text(out)?;
        }
        out.end_map()
    }

    fn read<F: Format>(
        alloc: Global,
        from: &mut Deserializer<'_, '_, F>,
    ) -> Result<Self, F::Error> {
        from.begin_map()?;
        let mut entries = BTreeMap::new(alloc);
        for _ in 0..u64::MAX {
            if !from.next_entry()? {
                return Ok(entries);
            }
            let key = from.string(alloc)?;
            let Ok(_replaced) = entries.insert(key, read_text(alloc, from)?) else {
                return Err(from.no_memory());
            };
        }
        Err(from.wrong_len())
    }
}

/// Reads a string and parses it.
fn read_text<T: Text, F: Format>(
    alloc: Global,
    from: &mut Deserializer<'_, '_, F>,
) -> Result<T, F::Error>
    ensures { IfOk result (λ v. (t : List ℕ) × T.IsParsedFrom v t
        × Gives F.gives from.old (text t) from.new) }
{
    let text = match from.string(alloc) {
        Ok(text) => text,
        Err(error) if from.is_fatal(&error) => return Err(error),
        Err(_) => return Err(from.custom(T::WANTED)),
    };
    T::parse_text(&text).map_err(|message| from.custom(message.as_str()))
}

impl Text for StdDuration {
    ghost IsPrintedAs = { λ d t. t ≡ duration_text d };

    ghost IsParsedFrom = { λ d t. duration_answer (chars t) ≡ Ok d };

    fn write_text<S: Serializer>(&self, out: &mut S) -> Result<(), S::Error> {
        out.str(format_duration(*self).text(&mut [0; 64]))
    }

    fn parse_text(text: &str) -> Result<Self, Message> {
        parse_duration(text).map_err(Message::of)
    }
}

impl Text for Duration {
    ghost IsPrintedAs = { λ d t. t ≡ duration_text d };

    ghost IsParsedFrom = { λ d t. duration_answer (chars t) ≡ Ok d };

    fn write_text<S: Serializer>(&self, out: &mut S) -> Result<(), S::Error> {
        self.as_ref().write_text(out)
    }

    fn parse_text(text: &str) -> Result<Self, Message> {
        Ok(Duration::new(StdDuration::parse_text(text)?))
    }
}

impl Text for time::Duration {
    ghost IsPrintedAs = { λ d t. t ≡ duration_text (as_nanos d) };

    ghost IsParsedFrom = { λ d t. duration_answer (chars t) ≡ Ok (as_nanos d) };

    fn write_text<S: Serializer>(&self, out: &mut S) -> Result<(), S::Error> {
        StdDuration::from_std(*self).write_text(out)
    }

    fn parse_text(text: &str) -> Result<Self, Message> {
        Ok(StdDuration::parse_text(text)?.to_std())
    }
}

impl Text for SystemTime {
    ghost IsPrintedAs = { λ m t. IsPrinted m (places_of m) t };

    ghost IsParsedFrom = { λ m t. weak_answer t ≡ Ok m };

    const WANTED: &'static str = "expected a timestamp in quotes";

    fn write_text<S: Serializer>(&self, out: &mut S) -> Result<(), S::Error> {
        let stamp = format_rfc3339(*self);
        printed_moment_reads(&stamp);
        match stamp.text(&mut [0; 30]) {
            Some(text) => out.str(text),
            None => Err(out.custom("time is not from 1970 to 9999")),
        }
    }

    fn parse_text(text: &str) -> Result<Self, Message> {
        parse_rfc3339_weak(text).map_err(Message::of)
    }
}

impl Text for Timestamp {
    ghost IsPrintedAs = { λ m t. IsPrinted m (places_of m) t };

    ghost IsParsedFrom = { λ m t. weak_answer t ≡ Ok m };

    const WANTED: &'static str = "expected a timestamp in quotes";

    fn write_text<S: Serializer>(&self, out: &mut S) -> Result<(), S::Error> {
        self.as_ref().write_text(out)
    }

    fn parse_text(text: &str) -> Result<Self, Message> {
        Ok(Timestamp::from(SystemTime::parse_text(text)?))
    }
}
