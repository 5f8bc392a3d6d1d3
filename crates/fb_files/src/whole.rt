//! Reading a file to its end, and writing all of some bytes.
ghost use Rattle.std.specs.Prelude.{◌≡◌, ◌≢◌, ◌+◌, ◌≤◌, ℕ, List, ◌++◌, length, IfOk, IfErr, IfSome};
ghost use Rattle.std.specs.Io.KnownBytes.{Consumes, IsAtEnd};
ghost use Rattle.fb_files.specs.Whole.{ReadsWhole, WritesWhole};

use crate::{LoadError, WriteError};
use std::alloc::Global;
use std::io::{Read, Write};

const PIECE: usize = 8192;

/// All bytes that the reader has left. It reads one byte past the limit at most.
pub(crate) fn read_whole<R: Read>(
    alloc: Global,
    reader: &mut R,
    limit: u64,
) -> Result<Vec<u8>, LoadError>
    ensures bound { IfOk result (λ bytes. length bytes.items ≤ limit) }
    ensures content { IfSome (R.remaining reader.old) (λ left. ReadsWhole left limit result) }
{
    let mut bytes = Vec::new(alloc);
    loop {
        let room = limit - bytes.len() as u64;
        let taken = read_piece(reader, &mut bytes, room)?;
        if taken == 0 {
            return Ok(bytes);
        }
        if bytes.len() as u64 > limit {
            return Err(LoadError::TooLong);
        }
    }
}

// Reads a piece of at most `room` bytes and one more.
fn read_piece<R: Read>(reader: &mut R, bytes: &mut Vec<u8>, room: u64) -> Result<usize, LoadError>
    ensures piece { IfOk result (λ taken. (piece : List ℕ) × (length piece ≡ taken) × (taken ≤ room + 1)
        × (bytes.new.items ≡ bytes.old.items ++ piece)
        × Consumes (R.remaining reader.old) (R.remaining reader.new) piece) }
    ensures end { IfOk result (λ taken. taken ≡ 0 → IsAtEnd (R.remaining reader.new)) }
    ensures cause { IfErr result (λ error. error ≢ LoadError.TooLong) }
{
    let mut buffer = [0u8; PIECE];
    let wanted = if room < PIECE as u64 {
        room as usize + 1
    } else {
        PIECE
    };
    let taken = reader.read(&mut buffer[..wanted])?;
    bytes.extend_from_slice(&buffer[..taken])?;
    Ok(taken)
}

/// Writes all the bytes. A write that takes none of them is a failure.
pub(crate) fn write_whole<W: Write>(writer: &mut W, bytes: &[u8]) -> Result<(), WriteError>
    ensures { WritesWhole bytes.now result (W.contents writer.old) (W.contents writer.new) }
{
    let mut left = bytes;
    while !left.is_empty() {
        let taken = writer.write(left)?;
        if taken == 0 {
            return Err(WriteError::Failed);
        }
        left = &left[taken..];
    }
    Ok(writer.flush()?)
}
