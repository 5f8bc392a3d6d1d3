//! Lines whose bytes come in pieces.
ghost use Rattle.std.specs.Prelude.{◌≡◌, [], ◌++◌, OnOk};
ghost use Rattle.fb_reading.specs.Answers.{IsAnswer};

use fb_reading::{LineError, read_line};
use fb_report::Line;
use std::alloc::Global;

/// Reads the line whose bytes are the kept ones and these, of which none are kept any longer.
pub(crate) fn read_whole(alloc: Global, kept: &mut Vec<u8>, bytes: &[u8]) -> Result<Line, LineError>
    ensures answer { IsAnswer (kept.old.items ++ bytes.now) result }
    ensures none { OnOk result (kept.new.items ≡ []) }
{
    if kept.is_empty() {
        return read_line(alloc, bytes);
    }
    if kept.extend_from_slice(bytes).is_err() {
        return Err(LineError::Memory);
    }
    let read = read_line(alloc, kept.as_slice());
    kept.clear();
    read
}
