//! That the rows which are written of flaws read back as these flaws. Each function does nothing; its contract is the
//! law.
ghost use Rattle.rl_grade_report.specs.RowLaw.{SinglesAreWritable, RowReadsBack, RowsReadBack, FoundRowsReadBack};

/// Each single flaw of a description is one that a row can say, where the session sends fewer than 2 to the power of 63
/// bus items.
pub fn single_flaws_are_writable()
    ensures { SinglesAreWritable }
{}

/// Take any rows that describe a chip and its layout with no fault. The text of one flaw's row, and the rows that
/// `push_rows` and `push_found_rows` write, are TOML and have the form of a description, with as many rows as flaws and
/// nothing else. Over this chip and layout they say exactly these flaws, in order. They have no fault where they are as
/// few as a description may have.
pub fn rows_read_back()
    ensures one { RowReadsBack }
    ensures verdict { RowsReadBack }
    ensures found { FoundRowsReadBack }
{}
