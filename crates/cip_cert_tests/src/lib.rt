//! Tests of what stands below the search: of the checks of combinations and of the pool, on rows worked out by hand, on
//! 1,000 combinations that look random against a plain slow check, and on the split cuts of 1,000 mixed rows; of
//! fractions, rows, boxes and the tree of nodes; of dictionaries, the simplex method and bases that are guessed; of
//! pricing: bounding trees, the Lagrangian bound, pools of columns, master programs and rounds.
#![tactic(auto)]

#[cfg(test)]
mod asked;
#[cfg(test)]
mod block_texts;
#[cfg(test)]
mod bounding_trees;
#[cfg(test)]
mod boxes;
#[cfg(test)]
mod by_hand;
#[cfg(test)]
mod columns;
#[cfg(test)]
mod drawn;
#[cfg(test)]
mod draws;
#[cfg(test)]
mod dropping;
#[cfg(test)]
mod entries;
#[cfg(test)]
mod entries_drawn;
#[cfg(test)]
mod forms;
#[cfg(test)]
mod fractions;
#[cfg(test)]
mod held_points;
#[cfg(test)]
mod masters;
#[cfg(test)]
mod mixed_rows;
#[cfg(test)]
mod moves;
#[cfg(test)]
mod multipliers;
#[cfg(test)]
mod numbers;
#[cfg(test)]
mod points;
#[cfg(test)]
mod pools;
#[cfg(test)]
mod pricers;
#[cfg(test)]
mod pricing;
#[cfg(test)]
mod programs;
#[cfg(test)]
mod random;
#[cfg(test)]
mod random_cases;
#[cfg(test)]
mod regions;
#[cfg(test)]
mod shown;
#[cfg(test)]
mod simplex_draws;
#[cfg(test)]
mod single_calls;
#[cfg(test)]
mod slow_answers;
#[cfg(test)]
mod slow_check;
#[cfg(test)]
mod slow_sums;
#[cfg(test)]
mod splits;
#[cfg(test)]
mod states;
#[cfg(test)]
mod steps;
#[cfg(test)]
mod tree_rows;
#[cfg(test)]
mod tree_splits;
#[cfg(test)]
mod trees;
#[cfg(test)]
mod walks;
