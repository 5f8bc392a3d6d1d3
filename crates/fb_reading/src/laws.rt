//! What holds of answers. These calls do nothing: their contracts are the laws.
ghost use Rattle.std.specs.Prelude.{◌≡◌, ◌⊎◌, ℕ, List, Result, Ok, Err};
ghost use Rattle.fb_report.specs.Bytes.{line_bytes, line_text};
ghost use Rattle.fb_report.specs.declared.line.Line.{Line};
ghost use Rattle.fb_reading.specs.Answers.{IsAnswer, IsLine};
ghost use Rattle.fb_reading.specs.declared.key.LineError.{LineError};

use fb_index::{index_of_text, plan_of_text};
use fb_report::written_lines_are_read_again;

/// Bytes have one answer but for want of memory.
pub fn answers_are_unique()
    ensures { (bytes : List ℕ) (a : Result Line LineError) (b : Result Line LineError) → IsAnswer bytes a → IsAnswer bytes b
        → (a ≡ Err LineError.Memory) ⊎ (b ≡ Err LineError.Memory) ⊎ (a ≡ b) }
{
    index_of_text();
    plan_of_text();
}

/// What is written of a line is read again as that line, and two lines with the same bytes are the same line.
pub fn written_lines_are_answers()
    ensures read_again { (line : Line) → IsLine line → IsAnswer (line_text line) (Ok line) }
    ensures told { (a : Line) (b : Line) → IsLine a → IsLine b → line_bytes a ≡ line_bytes b → a ≡ b }
{
    index_of_text();
    plan_of_text();
    written_lines_are_read_again();
}
