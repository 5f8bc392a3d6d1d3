//! Bytes, line by line.
ghost use Rattle.std.specs.Prelude.{◌≡◌};
ghost use Rattle.fb_report.specs.Lines.{GivesPiece};

use crate::cut::cut;
use std::marker::Model;

/// What stands up to a line feed, without it, or the bytes behind the last one.
#[derive(Drop)]
pub enum Piece<'a> {
    Whole(&'a [u8]),
    /// The offset where they begin.
    Cut { offset: u64 },
}

/// The pieces of some bytes that are still to come.
#[derive(Drop)]
pub struct Split<'a> {
    offset: u64,
    left: &'a [u8],
}

impl<'a> Model for Split<'a> {
    ghost use Rattle.std.specs.Prelude.{◌+◌, ◌^◌, ◌<◌, length};
    ghost use Rattle.fb_report.specs.Lines.{Remaining};

    ghost Value = { Remaining };

    ghost view = { λ s. record { offset = s.offset; left = s.left.now } };

    ghost invariant = { λ s. s.offset + length s.left.now < 2 ^ 64 };
}

/// The lines of these bytes, one after another.
pub fn split_lines(bytes: &[u8]) -> Split<'_>
    ensures { result ≡ record { offset = 0; left = bytes.now } }
{
    Split {
        offset: 0,
        left: bytes,
    }
}

impl<'a> Split<'a> {
    /// The next piece. A cut one comes last, exactly where there are bytes behind the last line feed.
    pub fn next(&mut self) -> Option<Piece<'a>>
        ensures { GivesPiece self.old result self.new }
    {
        if self.left.is_empty() {
            return None;
        }
        match cut(self.left, b'\n') {
            Some((line, rest)) => {
                self.offset += line.len() as u64 + 1;
                self.left = rest;
                Some(Piece::Whole(line))
            }
            None => {
                let offset = self.offset;
                self.left = &[];
                Some(Piece::Cut { offset })
            }
        }
    }
}
