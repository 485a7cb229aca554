//! The first column whose choice is still open.
ghost use Rattle.std.specs.Prelude.{◌≡◌, ◌≤◌, length, min, IfSome, MatchOption, option_map};
ghost use Rattle.cip_problem.specs.Limits.{most_columns};
ghost use Rattle.cip_node_rules.specs.OpenColumns.{IsFirstColumn, PassesNowhere};
ghost use Rattle.cip_node_rules.specs.OpenChoices.{is_choice_open, is_unallowed};
ghost use Rattle.cip_node_rules.specs.SplitRules.{IsChoiceRule};

use cip_lin::{Choices, Frac};

/// How many of the first columns are listed in the choices.
fn listed(columns: usize, choices: &Choices) -> u32
    requires { columns ≤ most_columns }
    ensures { result ≡ min columns (length choices.now) }
{
    let count = choices.len();
    if count < columns {
        count as u32
    } else {
        columns as u32
    }
}

/// The first of so many columns whose choice is open.
pub fn choice_column(columns: usize, choices: &Choices) -> Option<u32>
    requires { columns ≤ most_columns }
    ensures { MatchOption result (PassesNowhere (is_choice_open choices.now) columns)
        (IsFirstColumn (is_choice_open choices.now) columns) }
{
    for column in 0..listed(columns, choices) {
        if choices.as_slice()[column as usize].is_open() {
            return Some(column);
        }
    }
    None
}

/// The first of so many columns whose choice is open and doesn't allow the value that a point has there.
pub fn unallowed_column(columns: usize, choices: &Choices, point: &[Frac]) -> Option<u32>
    requires columns { columns ≤ most_columns }
    requires values { columns ≤ length point.now }
    ensures { MatchOption result (PassesNowhere (is_unallowed choices.now point.now) columns)
        (IsFirstColumn (is_unallowed choices.now point.now) columns) }
{
    for column in 0..listed(columns, choices) {
        if !choices.allows(column, point[column as usize]) {
            return Some(column);
        }
    }
    None
}

/// The one of so many columns whose choice is made next: by a point, if there is one, the first whose choice is open
/// and doesn't allow its value there; else the first whose choice is open. `None` exactly where no choice is open.
pub fn chosen_choice(columns: usize, choices: &Choices, point: Option<&[Frac]>) -> Option<u32>
    requires columns { columns ≤ most_columns }
    requires values { IfSome point (λ values. columns ≤ length values.now) }
    ensures { MatchOption result (PassesNowhere (is_choice_open choices.now) columns)
        (IsChoiceRule choices.now (option_map (λ values. values.now) point.entry) columns) }
{
    if let Some(point) = point {
        if let Some(col) = unallowed_column(columns, choices, point) {
            return Some(col);
        }
    }
    choice_column(columns, choices)
}
