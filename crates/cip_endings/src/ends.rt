//! How a search ends.
ghost use Rattle.std.specs.Prelude.{◌≡◌, true, false};
ghost use Rattle.cip_report.specs.declared.figures.Ended.TheVariants.{Gap};
ghost use Rattle.cip_endings.specs.Gaps.{reaches_gap};
ghost use Rattle.cip_endings.specs.Ends.{one_matters, EndsBy};

use crate::gaps::reaches_gap;
use crate::worst::{Worst, worst_bound};
use cip_frac::Frac;
use cip_node_rules::matters;
use cip_report::Ended;

/// Whether there is a bound, and it matters beside the cost held.
fn one_matters(held: &Option<Frac>, bound: &Option<Option<Frac>>) -> bool
    ensures { result ≡ one_matters held.now bound.now }
{
    match bound {
        None => false,
        Some(bound) => matters(*held, *bound),
    }
}

/// How a search ends by what is left of it, beside the cost held, with the least bound of open nodes, if there are any,
/// and the worst leaf.
fn ended_by(held: &Option<Frac>, waiting: &Option<Option<Frac>>, worst: Option<Worst>) -> Ended
    ensures { EndsBy held.now waiting.now worst result }
{
    if one_matters(held, waiting) {
        return Ended::NodeLimit;
    }
    if one_matters(held, &worst_bound(&worst)) {
        return match worst {
            Some(worst) => Ended::Wide {
                leaf: worst.leaf,
                on: worst.on,
                shown: worst.shown,
            },
            None => unreachable!(),
        };
    }
    if held.is_some() {
        Ended::Optimal
    } else {
        Ended::Infeasible
    }
}

/// How a search ends, beside the cost held and the least bound: by the gap that was asked for where that is reached,
/// and else by what is left.
pub fn ended_at(
    asked: &Option<Frac>,
    bound: &Option<Frac>,
    held: &Option<Frac>,
    waiting: &Option<Option<Frac>>,
    worst: Option<Worst>,
) -> Ended
    ensures near { reaches_gap asked.now held.now bound.now ≡ true → result ≡ Gap }
    ensures far { reaches_gap asked.now held.now bound.now ≡ false → EndsBy held.now waiting.now worst result }
{
    if reaches_gap(asked, held, bound) {
        Ended::Gap
    } else {
        ended_by(held, waiting, worst)
    }
}
