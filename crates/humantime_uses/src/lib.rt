//! Functions that use each public item of `humantime`, and most of those of `humantime_std` that
//! take no clock.
//!
//! Most are proved by public contracts, laws and theorems alone, so if one of these says less, a
//! function is mostly no longer proved. The files `proofs/*Facts.antt` state the rules of the
//! definitions once more, each with literals and for any value, so that a definition that changes
//! at one value is rejected.
#![tactic(auto)]

pub mod buffers;
pub mod calendar;
pub mod carets;
pub mod displays;
pub mod durations;
pub mod laws;
pub mod settings;
pub mod spans;
pub mod std_limits;
pub mod std_traits;
pub mod timestamps;
pub mod values;
pub mod witnesses;
