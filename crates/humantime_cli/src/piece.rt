//! [`Piece`]: up to 192 bytes of a line, from an offset on.

ghost use Rattle.std.specs.Prelude.{◌≤◌};

use std::fmt;

/// The maximum number of bytes in a piece. Only the message for a unit of more than 72 bytes takes
/// more than one.
pub(crate) const PIECE_LEN: usize = 192;

/// The bytes of a string from an offset on, as many as fit.
///
/// The whole string is written to it: it skips the bytes before the offset, and drops those that do
/// not fit.
#[derive(Drop)]
pub(crate) struct Piece {
    /// The number of bytes that it still skips.
    skip: usize,
    bytes: [u8; PIECE_LEN],
    len: usize,
    /// Whether some bytes did not fit.
    is_cut: bool,
    ghost in_range: { len ≤ 192 },
}

impl Piece {
    ghost use Rattle.std.specs.Prelude.{◌≡◌, ◌==◌, ◌&&◌, not, [], take};
    ghost use Rattle.humantime_cli.specs.Pieces.{IsPiece};

    /// Returns an empty piece of a string, from the offset `start` on.
    pub(crate) fn new(start: usize) -> Piece
        ensures { IsPiece start [] result }
    {
        Piece {
            skip: start,
            bytes: [0; PIECE_LEN],
            len: 0,
            is_cut: false,
        }
    }

    /// Returns the bytes of the piece.
    pub(crate) fn as_bytes(&self) -> &[u8]
        ensures { result.now ≡ take self.now.len self.now.bytes }
    {
        &self.bytes[..self.len]
    }

    /// Returns `true` if no bytes of the string follow the first `count` bytes of the piece.
    pub(crate) fn ends_after(&self, count: usize) -> bool
        ensures { result ≡ ((count == self.now.len) && not self.now.is_cut) }
    {
        count == self.len && !self.is_cut
    }
}

impl fmt::Write for Piece {
    ghost use Rattle.humantime_cli.specs.Pieces.{AddsText};

    ghost write_str_gives = { AddsText };

    #[inline(always)]
    #[tactic(auto, using(crate::proofs::PieceLemmas::pieces))]
    fn write_str(&mut self, s: &str) -> fmt::Result {
        let skipped = self.skip.min(s.len());
        self.skip -= skipped;
        let rest = &s.as_bytes()[skipped..];
        let count = rest.len().min(PIECE_LEN - self.len);
        let end = self.len + count;
        self.bytes[self.len..end].copy_from_slice(&rest[..count]);
        self.len = end;
        self.is_cut = self.is_cut || count < rest.len();
        Ok(())
    }
}
