//! Laws of lines of which only the entries that aren't 0 are kept.
// The function does nothing. Its contract is a law of the definitions, so that the check proves it.
ghost use Rattle.cip_dict.specs.SparseLines.{SparseLinesTell};
ghost use Rattle.cip_dict.specs.WholeLines.{WholeLinesTell};

/// The dense line of what is kept of a line is that line; and a loop may go from entry to entry, and pass over numbers
/// that are 0 and variables on which nothing is formed.
pub fn sparse_lines_tell()
    ensures { SparseLinesTell }
{}

/// No operation of an exchange leaves the range on numbers whose parts are below 2^42, and what it forms can be formed
/// on whole numbers over one denominator.
pub fn whole_lines_tell()
    ensures { WholeLinesTell }
{}
