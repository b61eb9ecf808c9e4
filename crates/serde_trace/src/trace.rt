//! A format that passes each step on to another one and counts the steps: it tells where and why
//! the reading of a value fails.

ghost use Rattle.std.specs.Prelude.{◌≡◌, IfOk};
ghost use Rattle.serde.specs.Steps.{Gives, Picks, Stays};

use crate::rejection::{Cause, Part, Rejection};
use serde::{Case, DeserializeOwned, Deserializer, Format, Kind, Name, NameKind};
use std::alloc::{AllocError, Global};

/// A value, or where and why a document does not contain it.
#[derive(Drop)]
pub struct Traced<T>(pub Result<T, Rejection>);

impl<T: DeserializeOwned> DeserializeOwned for Traced<T> {
    /// Reads a value step by step, and passes the rest of one that is rejected.
    fn deserialize_owned<F: Format>(
        alloc: Global,
        from: &mut Deserializer<'_, '_, F>,
    ) -> Result<Self, F::Error> {
        let start = from.mark();
        let steps = Steps::new(alloc);
        let read = Trace { from, steps }.value()?;
        if read.is_err() {
            from.rewind(start);
        }
        // Nothing is read again, so the other format need not keep it.
        from.release(start);
        if read.is_err() {
            from.skip()?;
        }
        Ok(Traced(read))
    }
}

/// What is wrong with a value, unless memory is refused.
type Rejected = Result<Box<Rejection>, AllocError>;

/// Why a step fails, in boxes, since a result is copied even where nothing fails.
#[derive(Drop)]
enum Stop<E> {
    Own(Rejected),
    /// The other format has this error, which is told as a rejection if it is not fatal.
    Other(Box<E>, Rejected),
}

impl<E> From<AllocError> for Stop<E> {
    fn from(refused: AllocError) -> Self {
        Stop::Own(Err(refused))
    }
}

/// The format of another deserializer, and the steps so far.
#[derive(Drop)]
struct Trace<'a, 'de, 's, F: Format> {
    from: &'a mut Deserializer<'de, 's, F>,
    steps: Steps,
}

impl<F: Format> Trace<'_, '_, '_, F> {
    /// Reads a value. Returns it, what is wrong with it, or the error of the other format.
    fn value<T: DeserializeOwned>(mut self) -> Result<Result<T, Rejection>, F::Error> {
        let read = T::deserialize_owned(self.steps.alloc, &mut Deserializer::new(&[], &mut self));
        let why = match read {
            Ok(value) => return Ok(Ok(value)),
            Err(Stop::Other(error, _why)) if self.from.is_fatal(&error) => {
                return Err(Box::into_inner(error));
            }
            Err(Stop::Other(_error, why)) => why,
            Err(Stop::Own(why)) => why,
        };
        match why {
            Ok(rejection) => Ok(Err(Box::into_inner(rejection))),
            Err(AllocError) => Err(self.from.no_memory()),
        }
    }
}

impl<F: Format> Format for Trace<'_, '_, '_, F> {
    type Error = Stop<F::Error>;

    type Mark = (F::Mark, Place);

    ghost gives = { λ old _ event new. Gives F.gives old.from.now event new.from.now };

    ghost picks = { λ old _ is_key names at new.
        Picks F.picks old.from.now is_key names at new.from.now };

    ghost stays = { λ old new. Stays F.stays old.from.now new.from.now };

    fn bool(&mut self, _input: &[u8]) -> Result<bool, Self::Error> {
        self.steps.read(self.from.bool(), Kind::Bool, "a boolean")
    }

    fn i64(&mut self, _input: &[u8]) -> Result<i64, Self::Error> {
        self.steps.read(self.from.i64(), Kind::Signed, "an integer")
    }

    fn u64(&mut self, _input: &[u8]) -> Result<u64, Self::Error> {
        self.steps.read(self.from.u64(), Kind::Signed, "an integer")
    }

    fn i128(&mut self, _input: &[u8]) -> Result<i128, Self::Error> {
        self.steps
            .read(self.from.i128(), Kind::Signed, "an integer")
    }

    fn u128(&mut self, _input: &[u8]) -> Result<u128, Self::Error> {
        self.steps
            .read(self.from.u128(), Kind::Signed, "an integer")
    }

    fn f32(&mut self, _input: &[u8]) -> Result<f32, Self::Error> {
        self.steps.read(self.from.f32(), Kind::Float, "f32")
    }

    fn f64(&mut self, _input: &[u8]) -> Result<f64, Self::Error> {
        self.steps.read(self.from.f64(), Kind::Float, "f64")
    }

    fn char(&mut self, _input: &[u8]) -> Result<char, Self::Error> {
        self.steps.read(self.from.char(), Kind::Str, "a character")
    }

    // The input is not here, so nothing of it is lent.
    fn plain_str(&mut self, _input: &[u8]) -> Result<(usize, usize), Self::Error> {
        Err(self.invalid())
    }

    fn plain_bytes(&mut self, _input: &[u8]) -> Result<(usize, usize), Self::Error> {
        Err(self.invalid())
    }

    fn string(&mut self, alloc: Global, _input: &[u8]) -> Result<String, Self::Error> {
        self.steps
            .read(self.from.string(alloc), Kind::Str, "a string")
    }

    fn byte_buf(&mut self, alloc: Global, _input: &[u8]) -> Result<Vec<u8>, Self::Error> {
        self.steps
            .read(self.from.byte_buf(alloc), Kind::Bytes, "byte array")
    }

    fn peek(&mut self, _input: &[u8]) -> Result<Kind, Self::Error> {
        self.steps.see(self.from.peek(), Last::Value)
    }

    fn take_unit(&mut self, _input: &[u8]) -> Result<bool, Self::Error> {
        let is_taken = self.steps.see(self.from.take_unit(), Last::Value)?;
        if is_taken {
            self.steps.next = Part::Value;
        } else {
            self.steps.last = Last::NoUnit;
        }
        Ok(is_taken)
    }

    fn take_none(&mut self, _input: &[u8]) -> Result<bool, Self::Error> {
        let is_taken = self.steps.see(self.from.take_none(), Last::Value)?;
        if is_taken {
            self.steps.next = Part::Value;
        }
        Ok(is_taken)
    }

    fn begin_seq(&mut self, _input: &[u8]) -> Result<(), Self::Error> {
        self.steps
            .read(self.from.begin_seq(), Kind::Seq, "a sequence")?;
        Ok(self.steps.open(false)?)
    }

    fn next_item(&mut self, _input: &[u8]) -> Result<bool, Self::Error> {
        let is_more = self.steps.see(self.from.next_item(), Last::Value)?;
        self.steps.pass(is_more, Part::Value)?;
        Ok(is_more)
    }

    fn end_tuple(&mut self, _input: &[u8]) -> Result<(), Self::Error> {
        let end = self.from.expect_end();
        self.steps.pass(end.is_err(), Part::Value)?;
        end.map_err(|error| self.steps.boxed(error, self.steps.wrong_len()))
    }

    fn begin_struct(&mut self, _input: &[u8]) -> Result<bool, Self::Error> {
        let is_seq = self
            .steps
            .read(self.from.begin_struct(), Kind::Map, "a map")?;
        self.steps.open(false)?;
        Ok(is_seq)
    }

    fn begin_map(&mut self, _input: &[u8]) -> Result<(), Self::Error> {
        let is_reread = matches!(self.steps.last, Last::Rewound);
        self.steps.read(self.from.begin_map(), Kind::Map, "a map")?;
        Ok(self.steps.open(is_reread)?)
    }

    fn next_key(
        &mut self,
        _input: &[u8],
        names: &[Name<'_>],
    ) -> Result<Option<usize>, Self::Error> {
        let found = self.steps.see(self.from.next_key(names), Last::NoVariant)?;
        self.steps.pass_key(found, names)?;
        Ok(found)
    }

    fn next_entry(&mut self, _input: &[u8]) -> Result<bool, Self::Error> {
        let is_more = self.steps.see(self.from.next_entry(), Last::Value)?;
        self.steps.pass(is_more, Part::Key)?;
        Ok(is_more)
    }

    fn variant(&mut self, _input: &[u8], names: &[Name<'_>]) -> Result<usize, Self::Error> {
        let found = self
            .steps
            .read(self.from.variant(names), Kind::Str, "variant identifier")?;
        self.steps.last = Last::Variant;
        if found >= names.len() {
            self.steps.keep_unknown(names)?;
        }
        Ok(found)
    }

    fn skip(&mut self, _input: &[u8]) -> Result<(), Self::Error> {
        if self.steps.part == Part::Key {
            self.steps.keep_key(None);
        }
        self.steps.read(self.from.skip(), Kind::Unit, "a value")
    }

    fn mark(&mut self) -> Self::Mark {
        (self.from.mark(), self.steps.place())
    }

    fn rewind(&mut self, (mark, place): Self::Mark) {
        self.from.rewind(mark);
        self.steps.rewind(place);
    }

    fn release(&mut self, (mark, _place): Self::Mark) {
        self.from.release(mark)
    }

    fn is_fatal(&self, stop: &Self::Error) -> bool {
        match stop {
            Stop::Other(error, Ok(_)) => self.from.is_fatal(error),
            Stop::Own(why) | Stop::Other(_, why) => why.is_err(),
        }
    }

    fn missing(&self, name: &str) -> Self::Error {
        Stop::Own(self.steps.missing(name))
    }

    fn duplicate(&self, _name: &str) -> Self::Error {
        Stop::Own(self.steps.rejection(Part::Key, Cause::Duplicate))
    }

    fn unknown_key(&self) -> Self::Error {
        Stop::Own(self.steps.unknown_key())
    }

    fn unknown_variant(&self) -> Self::Error {
        Stop::Own(self.steps.unknown_variant())
    }

    fn wrong_len(&self) -> Self::Error {
        Stop::Own(self.steps.wrong_len())
    }

    fn invalid(&self) -> Self::Error {
        Stop::Own(self.steps.invalid())
    }

    fn no_memory(&self) -> Self::Error {
        AllocError.into()
    }

    fn custom(&self, message: &str) -> Self::Error {
        Stop::Own(self.steps.message(self.steps.part, message))
    }
}

/// The steps so far.
#[derive(Drop)]
struct Steps {
    alloc: Global,
    /// The maps and sequences that are open, and then those that have ended last.
    levels: Vec<Level>,
    /// How many of them are open.
    depth: usize,
    /// The part of its entry or item that the last step has read.
    part: Part,
    /// The part that the next step reads.
    next: Part,
    last: Last,
    /// What is expected in place of the last key, if it is unknown.
    expected: String,
    /// What is wrong with the last unknown variant, until a value but a map is read.
    variant: Option<Box<Rejection>>,
}

/// A map or sequence.
#[derive(Drop)]
struct Level {
    /// How many entries or items have begun.
    len: usize,
    /// The number of the last key's name, if it has one and is not skipped.
    key: Option<usize>,
    /// Those of the keys before it, each once.
    keys: Vec<usize>,
    /// What it lacks, by each type that has read it.
    missing: Vec<Missing>,
    /// Whether it is read after going back.
    is_reread: bool,
}

/// A name for which a map has no key, and the case of the key.
#[derive(Drop)]
struct Missing {
    name: String,
    case: Case,
}

/// What the last step has read, as far as an error tells it.
#[derive(Clone, Copy, Drop)]
enum Last {
    Value,
    Integer,
    /// The name of a variant.
    Variant,
    /// Nothing: no unit is next.
    NoUnit,
    /// The start of an entry or item.
    Item,
    /// A key in place of the end.
    SecondKey,
    /// The end in place of the key of a variant.
    NoVariant,
    /// The end in place of the key of a variant's content.
    NoContent,
    /// Nothing: it has gone back.
    Rewound,
}

/// A place to come back to: how many levels are open, and what the last one has.
#[derive(Clone, Copy, Drop)]
struct Place {
    depth: usize,
    len: usize,
    key: Option<usize>,
    keys: usize,
    next: Part,
}

impl Steps {
    fn new(alloc: Global) -> Self {
        Steps {
            alloc,
            levels: Vec::new(alloc),
            depth: 0,
            part: Part::Value,
            next: Part::Value,
            last: Last::Value,
            expected: String::new(alloc),
            variant: None,
        }
    }

    fn go(&mut self, part: Part, last: Last) {
        (self.part, self.next, self.last) = (part, part, last);
        self.expected.clear();
    }

    /// Looks at what is next, and tells an error by `last`.
    fn see<T, E: Drop>(&mut self, seen: Result<T, E>, last: Last) -> Result<T, Stop<E>>
        ensures { IfOk result (λ value. seen ≡ Ok value) }
    {
        self.go(self.next, last);
        seen.map_err(|error| self.boxed(error, self.invalid()))
    }

    /// Reads what is next, where this is expected.
    #[inline(always)]
    fn read<T, E>(&mut self, read: Result<T, E>, kind: Kind, expected: &str) -> Result<T, Stop<E>>
    where
        E: Drop,
        ensures { IfOk result (λ value. read ≡ Ok value) }
    {
        self.go(self.next, Last::Value);
        self.next = Part::Value;
        // After the name of a variant, its content is looked for in the same map.
        if self.variant.is_some() && !matches!(kind, Kind::Map | Kind::Unit) {
            self.variant = None;
        }
        if read.is_ok() && matches!(kind, Kind::Signed) {
            self.last = Last::Integer;
        }
        read.map_err(|error| self.boxed(error, self.unexpected(kind, expected)))
    }

    fn boxed<E: Drop>(&self, error: E, why: Rejected) -> Stop<E> {
        match Box::new(self.alloc, error) {
            Ok(error) => Stop::Other(error, why),
            Err(_refused) => AllocError.into(),
        }
    }

    /// Opens a map or sequence.
    fn open(&mut self, is_reread: bool) -> Result<(), AllocError> {
        if let Some(level) = self.levels.get_mut(self.depth) {
            (level.len, level.key, level.is_reread) = (0, None, is_reread);
            level.keys.clear();
        } else {
            self.levels.push(Level {
                len: 0,
                key: None,
                keys: Vec::new(self.alloc),
                missing: Vec::new(self.alloc),
                is_reread,
            })?;
        }
        self.depth = self.depth.saturating_add(1);
        self.levels.truncate(self.depth);
        Ok(())
    }

    /// Begins another entry or item, or closes the map or sequence.
    #[inline(always)]
    fn pass(&mut self, is_more: bool, part: Part) -> Result<(), AllocError> {
        if !is_more {
            self.go(Part::Value, Last::Value);
            self.depth = self.depth.saturating_sub(1);
            return Ok(());
        }
        self.go(part, Last::Item);
        if let Some(ended) = self.levels.get_mut(self.depth) {
            ended.missing.clear();
        }
        if let Some(level) = self.levels.get_mut(self.depth.wrapping_sub(1)) {
            level.len = level.len.wrapping_add(1);
            if let Some(key) = level.key.take()
                && !level.keys.contains(&key)
            {
                level.keys.push(key)?;
            }
        }
        Ok(())
    }

    /// Begins the entry of a key, which is perhaps one of these names, or closes the map.
    fn pass_key(&mut self, found: Option<usize>, names: &[Name<'_>]) -> Result<(), AllocError> {
        self.pass(found.is_some(), Part::Key)?;
        self.next = Part::Value;
        match found {
            Some(at) if at < names.len() => self.keep_key(found),
            Some(_) => self.keep_unknown(names)?,
            None => self.keep_missing(names)?,
        }
        Ok(())
    }

    /// Keeps which name the last key stands for, if it is not skipped.
    fn keep_key(&mut self, name: Option<usize>) {
        if let Some(level) = self.levels.get_mut(self.depth.wrapping_sub(1)) {
            level.key = name;
        }
    }

    /// Keeps that the last key or string is none of these names.
    fn keep_unknown(&mut self, names: &[Name<'_>]) -> Result<(), AllocError> {
        if names.is_empty() {
            self.last = Last::SecondKey;
        }
        let expected = expected(self.alloc, names)?;
        if are_variants(names) {
            self.variant = Some(self.rejection(self.part, Cause::UnknownVariant(expected))?);
        } else {
            self.expected = expected;
        }
        Ok(())
    }

    /// Keeps which of these names the map lacks that has ended.
    fn keep_missing(&mut self, names: &[Name<'_>]) -> Result<(), AllocError> {
        let (false, Some(map)) = (are_variants(names), self.levels.get_mut(self.depth)) else {
            self.last = Last::NoVariant;
            return Ok(());
        };
        for (at, name) in names.iter().enumerate() {
            if name.skipped || map.key == Some(at) || map.keys.contains(&at) {
                continue;
            }
            // The content of a variant is looked for in a second reading of the map, by one name.
            if names.len() == 1 && map.is_reread {
                self.last = Last::NoContent;
            }
            let (name, case) = (String::from_str(self.alloc, name.name)?, name.case);
            map.missing.push(Missing { name, case })?;
        }
        Ok(())
    }

    fn place(&self) -> Place {
        let (depth, next) = (self.depth, self.next);
        let level = self.levels.get(depth.wrapping_sub(1));
        let (len, key, keys) = level.map_or((0, None, 0), |it| (it.len, it.key, it.keys.len()));
        Place {
            depth,
            len,
            key,
            keys,
            next,
        }
    }

    /// Goes back to a place.
    fn rewind(&mut self, place: Place) {
        self.depth = place.depth;
        if let Some(level) = self.levels.get_mut(self.depth.wrapping_sub(1)) {
            (level.len, level.key) = (place.len, place.key);
            level.keys.truncate(place.keys);
        }
        self.go(place.next, Last::Rewound);
    }

    fn text(&self, text: &str) -> Result<String, AllocError> {
        String::from_str(self.alloc, text)
    }

    /// Rejects what the last step has read, or the first duplicate key.
    fn rejection(&self, part: Part, cause: Cause) -> Rejected {
        let mut path = Vec::new(self.alloc);
        for level in self.levels.iter().take(self.depth) {
            // In the last level, perhaps nothing has begun.
            if level.len == 0 {
                break;
            }
            path.push(level.len - 1)?;
            if matches!(cause, Cause::Duplicate)
                && let Some(key) = &level.key
                && level.keys.contains(key)
            {
                break;
            }
        }
        Ok(Box::new(self.alloc, Rejection { path, part, cause })?)
    }

    fn message(&self, part: Part, message: &str) -> Rejected {
        self.rejection(part, Cause::Message(self.text(message)?))
    }

    fn unexpected(&self, kind: Kind, expected: &str) -> Rejected {
        self.rejection(self.part, Cause::Expected(kind, self.text(expected)?))
    }

    fn missing(&self, name: &str) -> Rejected {
        let mut case = Case::AsIs;
        if let Some(map) = self.levels.get(self.depth) {
            for missing in &map.missing {
                if missing.name.as_str() == name {
                    case = missing.case;
                }
            }
        }
        let mut key = String::new(self.alloc);
        case.append(NameKind::Field, name, &mut key)?;
        self.rejection(Part::End, Cause::Missing(key))
    }

    fn unknown_key(&self) -> Rejected {
        self.rejection(Part::Key, Cause::UnknownField(self.text(&self.expected)?))
    }

    fn unknown_variant(&self) -> Rejected {
        match &self.variant {
            Some(variant) => variant.clone(),
            None => self.rejection(self.part, Cause::UnknownVariant(self.text("")?)),
        }
    }

    fn wrong_len(&self) -> Rejected {
        let mut rejection = self.rejection(Part::Value, Cause::Length)?;
        // It is the sequence that has an item too many.
        if let Last::Item = self.last {
            rejection.cause = Cause::Long(rejection.path.pop().unwrap_or(0));
        }
        Ok(rejection)
    }

    fn invalid(&self) -> Rejected {
        if let (Last::NoContent, Some(map)) = (self.last, self.levels.get(self.depth))
            && let Some(missing) = map.missing.last()
        {
            return self.missing(&missing.name);
        }
        let message = match self.last {
            Last::Integer => return self.rejection(self.part, Cause::Range),
            Last::NoUnit => return self.unexpected(Kind::Unit, "unit"),
            Last::NoVariant => {
                return self.message(Part::End, "wanted exactly 1 element, found 0 elements");
            }
            Last::SecondKey => "wanted exactly 1 element, more than 1 element",
            Last::Variant => "invalid type: unit variant, expected a variant with data",
            Last::Rewound => "data did not match any variant of untagged enum",
            _ => "",
        };
        self.message(self.part, message)
    }
}

/// Returns what is said of these names after one that is unknown.
fn expected(alloc: Global, names: &[Name<'_>]) -> Result<String, AllocError> {
    let (mut before, between) = match names.iter().filter(|name| !name.skipped).count() {
        0 if are_variants(names) => return String::from_str(alloc, ", there are no variants"),
        0 => return String::from_str(alloc, ", there are no fields"),
        1 | 2 => (", expected `", " or `"),
        _ => (", expected one of `", ", `"),
    };
    let mut expected = String::new(alloc);
    for name in names {
        if name.skipped {
            continue;
        }
        expected.push_str(before)?;
        name.case.append(name.kind, name.name, &mut expected)?;
        expected.push('`')?;
        before = between;
    }
    Ok(expected)
}

fn are_variants(names: &[Name<'_>]) -> bool {
    names.iter().any(|name| name.kind == NameKind::Variant)
}
