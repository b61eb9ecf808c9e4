//! Callers of `run`: what its contract lets them conclude for known arguments. They are proved, and
//! nothing calls them.

ghost use Rattle.std.specs.Prelude.{◌≡◌, ◌≢◌, ◌<◌, ◌++◌, ℕ, codes, take};

use super::run;

/// Prints a duration.
///
/// With status 3, at most the first six of the seven bytes of the line were written; otherwise all
/// of them were.
fn print_duration(out: &mut Vec<u8>, err: &mut Vec<u8>) -> u8
    ensures whole { result ≢ 3 → (result ≡ 0) × (out.new.items ≡ out.old.items ++ codes "2h 37m\n")
        × (err.new.items ≡ err.old.items) }
    ensures cut { result ≡ 3
        → ((n : ℕ) × (n < 7) × (out.new.items ≡ out.old.items ++ take n (codes "2h 37m\n")))
        × (err.new.items ≡ err.old.items) }
{
    run(&["duration", "2h 37min"], out, err)
}

/// Prints the error message of a string that is not a valid duration.
fn explain_fault(out: &mut Vec<u8>, err: &mut Vec<u8>) -> u8
    ensures whole { result ≢ 3 → (result ≡ 1) × (out.new.items ≡ out.old.items)
        × (err.new.items ≡ err.old.items ++ codes "invalid character at 1\n") }
    ensures cut { result ≡ 3
        → (out.new.items ≡ out.old.items) × ((n : ℕ) × (n < 23)
        × (err.new.items ≡ err.old.items ++ take n (codes "invalid character at 1\n"))) }
{
    run(&["duration", "1~"], out, err)
}

/// Prints a timestamp in the strict format.
fn print_strict(out: &mut Vec<u8>, err: &mut Vec<u8>) -> u8
    ensures { result ≢ 3 → (result ≡ 0)
        × (out.new.items ≡ out.old.items ++ codes "2018-02-14T00:28:07Z\n")
        × (err.new.items ≡ err.old.items) }
{
    run(&["strict", "2018-02-14T00:28:07Z"], out, err)
}
