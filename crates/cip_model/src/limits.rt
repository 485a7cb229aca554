//! The limits of programs and of their texts.
ghost use Rattle.std.specs.Prelude.{◌≡◌};
ghost use Rattle.cip_problem.specs.Limits.{most_rows, most_columns, most_entries, longest_name, longest_text};
ghost use Rattle.cip_model.specs.declared.limits.TheConstants.{MOST_ROWS, MOST_COLUMNS, MOST_ENTRIES, LONGEST_NAME, LONGEST_TEXT};

/// The most rows of a program.
pub const MOST_ROWS: usize = 65_536;

/// The most columns of a program.
pub const MOST_COLUMNS: usize = 65_536;

/// The most entries of a program: pairs of a row and a column with a coefficient that is not 0.
pub const MOST_ENTRIES: usize = 4_194_304;

/// The most bytes of the name of a row or of a column.
pub const LONGEST_NAME: usize = 255;

/// The most bytes of a text.
pub const LONGEST_TEXT: usize = 67_108_864;

/// The limits that the code keeps are those of the definitions.
pub fn limits_agree()
    ensures rows { MOST_ROWS ≡ most_rows }
    ensures columns { MOST_COLUMNS ≡ most_columns }
    ensures entries { MOST_ENTRIES ≡ most_entries }
    ensures name { LONGEST_NAME ≡ longest_name }
    ensures text { LONGEST_TEXT ≡ longest_text }
{}
