//! What holds of lines and their bytes. These calls do nothing: their contracts are the laws.
ghost use Rattle.std.specs.Prelude.{◌≡◌, Some};
ghost use Rattle.serde_json.specs.Read.{read};
ghost use Rattle.fb_report.specs.declared.line.Line.{Line};
ghost use Rattle.fb_index.specs.Pieces.{IsFree};
ghost use Rattle.fb_report.specs.Bytes.{line_text};
ghost use Rattle.fb_report.specs.Lines.{line_feed};
ghost use Rattle.fb_report.specs.Ranges.{IsProperLine};
ghost use Rattle.fb_report.specs.Trees.{line_tree};

/// serde_json reads the line's JSON again from what is written of it.
pub fn written_lines_are_read_again()
    ensures { (line : Line) → IsProperLine line → read (line_text line) ≡ Some (line_tree line) }
{}

/// What is written of a line is one line: no line feed stands in its text.
pub fn written_lines_stay_whole()
    ensures { (line : Line) → IsProperLine line → IsFree line_feed (line_text line) }
{}
