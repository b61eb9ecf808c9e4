//! Writes a whole line to a writer whose `write` may accept only part of its input.

ghost use Rattle.std.specs.Prelude.{[], unwrap_or, IsSome, OnOk};
ghost use Rattle.humantime_cli.specs.Pieces.{IsPiece};
ghost use Rattle.humantime_cli.specs.Writes.{Writes, line};

use crate::piece::{PIECE_LEN, Piece};
use std::fmt::{self, Display, Write as _};
use std::io::Write;

/// Replaces the piece by the one from the offset `start` on of the line that [`write_line`] writes.
/// A piece in a `Result` would be copied.
#[inline(always)]
#[tactic(auto, using(crate::proofs::PieceLemmas::lines))]
fn fill<D: Display + Copy>(piece: &mut Piece, start: usize, value: D) -> fmt::Result
    requires { IsSome (D.output value) }
    ensures { OnOk result (IsPiece start (line (unwrap_or (D.output value) [])) piece.new) }
{
    *piece = Piece::new(start);
    // `fmt::Write::write` of the kit displays a value.
    piece.write(value)?;
    piece.write_str("\n")
}

/// Writes the string that `value` displays and a line feed. A write fails if it returns an error or
/// writes no bytes. Nothing more is written after a failed write.
///
/// If `to` failed within `Display`, no contract would say what it had received. So `value` is
/// displayed to a [`Piece`], which never fails. It is displayed again, to a piece that begins where
/// the last write ended, only if the line does not fit a piece or takes several writes.
#[inline(always)]
#[tactic(auto, using(crate::proofs::PieceLemmas::written), unfolding(crate::specs::Writes::Writes))]
pub(crate) fn write_line<W: Write, D: Display + Copy>(to: &mut W, value: D) -> fmt::Result
    requires { IsSome (D.output value) }
    ensures { Writes result (W.contents to.old) (W.contents to.new)
        (line (unwrap_or (D.output value) [])) }
{
    let mut piece = Piece::new(0);
    let mut done: usize = 0;
    while done <= usize::MAX - PIECE_LEN {
        fill(&mut piece, done, value)?;
        match to.write(piece.as_bytes()) {
            Ok(0) | Err(_) => return Err(fmt::Error),
            Ok(count) if piece.ends_after(count) => return Ok(()),
            Ok(count) => done += count,
        }
    }
    // Only a line of almost 2^64 bytes comes to this.
    Err(fmt::Error)
}
