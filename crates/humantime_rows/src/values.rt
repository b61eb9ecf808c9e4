//! The parts of durations and times, and their order.

use crate::writing::{agree, write_result};
use humantime::{StdDuration, SystemTime};
use std::fmt::{self, Formatter, Write};
use std::hash::{FoldHasher, Hash, Hasher};

/// Returns the seconds and nanoseconds of a duration.
pub(crate) fn parts(duration: StdDuration) -> (u64, u32) {
    (duration.as_secs(), duration.subsec_nanos())
}

/// Returns the seconds and nanoseconds of a time.
pub(crate) fn moment_parts(moment: SystemTime) -> (i64, u32) {
    (moment.unix_seconds(), moment.subsec_nanos())
}

/// Writes the order of two values. Their hashes have to be equal if the values are, and those of
/// their wrappers.
pub(crate) fn compare<W: Write, V: Ord + Hash + Copy, T: From<V> + Hash + Drop>(
    f: &mut Formatter<W>,
    first: V,
    second: V,
) -> fmt::Result {
    let hash = hash_of(&first);
    let is_wrapped = hash_of(&T::from(first)) == hash;
    let is_agreed = is_wrapped && (hash == hash_of(&second)) == (first == second);
    write_result(f, first.cmp(&second), agree("hashes", is_agreed))
}

/// Returns the hash of a value.
fn hash_of<T: Hash>(value: &T) -> u64 {
    let mut hasher = FoldHasher::default();
    value.hash(&mut hasher);
    hasher.finish()
}
