//! Laws of books. Each is a function that does nothing: what it ensures is the law.
ghost use Rattle.fb_book.specs.Laws.{BooksGrow, OtherLinesChangeNoBook};

use fb_functest::our_runs_are_lawful;
use fb_meaning::spelled_is_run;

/// A row more, with the line's place, its plan and the calls of its run, makes the book of the lines so far that of one
/// line more.
pub fn books_grow()
    ensures { BooksGrow }
{
    spelled_is_run();
    our_runs_are_lawful();
}

/// A line that is no plan line leaves the book as it is.
pub fn other_lines_change_no_book()
    ensures { OtherLinesChangeNoBook }
{}
