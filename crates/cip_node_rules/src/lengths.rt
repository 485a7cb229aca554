//! The limit of combinations.
ghost use Rattle.std.specs.Prelude.{◌≡◌, ◌+◌, nat_lt};
ghost use Rattle.cip_node_rules.specs.RowRules.{most_multiples};
ghost use Rattle.cip_node_rules.specs.declared.lengths.TheConstants.{MOST_MULTIPLES};

/// The most entries of a combination: rows, low sides and high sides together.
pub const MOST_MULTIPLES: usize = 4_096;

/// The limit that the code keeps is that of the definitions.
pub fn limit_agrees()
    ensures { MOST_MULTIPLES ≡ most_multiples }
{}

/// Whether so many rows, low sides and high sides are together more entries than a combination may have.
pub fn are_too_many(rows: usize, lows: usize, highs: usize) -> bool
    ensures { result ≡ nat_lt most_multiples (rows + lows + highs) }
{
    if rows > MOST_MULTIPLES {
        return true;
    }
    if lows > MOST_MULTIPLES - rows {
        return true;
    }
    highs > MOST_MULTIPLES - rows - lows
}
