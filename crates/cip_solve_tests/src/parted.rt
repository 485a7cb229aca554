//! What splits come to.
ghost use Rattle.std.specs.Prelude.{[], IsTrue};
ghost use Rattle.cip_problem.specs.Wholes.{AllHaveWholes};
ghost use Rattle.cip_problem.specs.WellFormed.{columns};
ghost use Rattle.cip_calls.specs.CoreStates.{reduced_of, IsKeptIn, IsTakenUp, IsAtWork, IsGivenBound};
ghost use Rattle.cip_calls.specs.ProposalsJudged.{HaveRoom};

use crate::programs::{MIXED_COLUMNS, TWO_COLUMNS, has_near_columns, program_of};
use cip_calls::{Core, JudgeFault, Judged, NodeFault, Presolved, Ruled, Scratches, judge};
use cip_model::Program;
use cip_node_rules::{Looked, look_at};
use cip_plugin::{Enforced, Proposal, Split};
use cip_tree::{Node, SplitFault};
use std::alloc::{AllocError, Global};

/// What is expected of a split.
#[derive(Clone, Copy)]
enum Expected {
    /// The halves 1 and 2.
    Halves,
    NoSuchColumn,
    TooFar,
    NotWhole,
    Outside,
}

/// A split of a root, and what is expected of it.
#[derive(Clone, Copy)]
struct Case {
    text: &'static str,
    col: u32,
    at: i128,
    expected: Expected,
}

static CASES: [Case; 7] = [
    Case {
        text: TWO_COLUMNS,
        col: 1,
        at: 0,
        expected: Expected::Halves,
    },
    Case {
        text: TWO_COLUMNS,
        col: 2,
        at: (1 << 100) + 1,
        expected: Expected::NoSuchColumn,
    },
    Case {
        text: TWO_COLUMNS,
        col: 0,
        at: (1 << 100) + 1,
        expected: Expected::TooFar,
    },
    Case {
        text: TWO_COLUMNS,
        col: 0,
        at: 1 << 100,
        expected: Expected::Outside,
    },
    Case {
        text: TWO_COLUMNS,
        col: 0,
        at: 1,
        expected: Expected::Outside,
    },
    Case {
        text: MIXED_COLUMNS,
        col: 1,
        at: 0,
        expected: Expected::NotWhole,
    },
    Case {
        text: MIXED_COLUMNS,
        col: 0,
        at: 2,
        expected: Expected::Halves,
    },
];

/// Why a split is refused; `None` where it isn't.
fn fault_as(expected: Expected) -> Option<JudgeFault> {
    match expected {
        Expected::Halves => None,
        Expected::NoSuchColumn => Some(JudgeFault::Node(NodeFault::NoSuchColumn)),
        Expected::TooFar => Some(JudgeFault::Node(NodeFault::TooFar)),
        Expected::NotWhole => Some(JudgeFault::Split(SplitFault::NotWhole)),
        Expected::Outside => Some(JudgeFault::Split(SplitFault::Outside)),
    }
}

/// The split as a rule's proposal, or as a handler's answer.
fn proposal_of(case: &Case, is_rule: bool) -> Proposal {
    let split = Split {
        col: case.col,
        at: case.at,
    };
    if is_rule {
        Proposal::Split(split)
    } else {
        Proposal::Enforcement(Enforced::Branched(split))
    }
}

/// Whether each whole column has a whole value in the box in work.
fn has_wholes(core: &Core<'_>, node: &Node) -> bool
    requires { IsAtWork core.now node.now }
    ensures { IsTrue result → AllHaveWholes (reduced_of core.now).integral core.now.tree.work.box }
{
    core.is_sound();
    let program = core.reduced();
    let _columns = program.columns();
    matches!(
        look_at(program.whole(), core.bounds(), core.choices()),
        Looked::Open
    )
}

/// The node has the halves 1 and 2, or the split was refused so.
fn is_expected(came: &Result<Ruled, AllocError>, fault: Option<JudgeFault>) -> bool {
    match came {
        Ok(Ruled::Halves(low, high)) => fault.is_none() && *low == 1 && *high == 2,
        Ok(Ruled::Kept(_, judged)) => match fault {
            Some(fault) => *judged == Judged::Refused(fault),
            None => false,
        },
        Err(_) => false,
    }
}

/// The log has an entry where the node was split, and else none.
fn has_entry(core: &Core<'_>, came: &Result<Ruled, AllocError>) -> bool {
    let is_halved = matches!(came, Ok(Ruled::Halves(_, _)));
    core.tree().log().is_empty() != is_halved
}

/// A split comes to what is expected, and then the log has an entry or none.
fn comes_to(
    alloc: Global,
    core: &mut Core<'_>,
    node: Node,
    scratches: &mut Scratches,
    case: &Case,
    is_rule: bool,
) -> bool
    requires at_work { IsAtWork core.old node }
    requires given { IsGivenBound core.old node.number node.bound }
    requires room { HaveRoom scratches.old (columns (reduced_of core.old)) }
{
    if core.tree().ids() != 1 || !has_wholes(core, &node) {
        drop(node);
        return false;
    }
    let given = node.bound();
    let proposal = proposal_of(case, is_rule);
    let came = judge(alloc, core, node, given, &proposal, scratches);
    drop(proposal);
    let is_so = is_expected(&came, fault_as(case.expected)) && has_entry(core, &came);
    drop(came);
    is_so
}

/// Makes the region of a node the region in work, and splits it.
fn is_split(alloc: Global, core: &mut Core<'_>, node: Node, case: &Case, is_rule: bool) -> bool
    requires up { IsTakenUp core.old node }
    requires given { IsGivenBound core.old node.number node.bound }
{
    let Ok(mut scratches) = Scratches::new(alloc, core.reduced()) else {
        drop(node);
        return false;
    };
    let is_so = match core.enter(&node) {
        Ok(true) => comes_to(alloc, core, node, &mut scratches, case, is_rule),
        _ => {
            drop(node);
            false
        }
    };
    drop(scratches);
    is_so
}

/// Takes up the root, and splits it.
fn is_taken(alloc: Global, core: &mut Core<'_>, case: &Case, is_rule: bool) -> bool
    requires { IsKeptIn core.old [] }
{
    match core.take() {
        Some(node) => is_split(alloc, core, node, case, is_rule),
        None => false,
    }
}

fn is_begun(alloc: Global, program: &Program, case: &Case, is_rule: bool) -> bool {
    let Ok(presolved) = Presolved::same(alloc, program) else {
        return false;
    };
    let mut is_so = false;
    if has_near_columns(&presolved.reduced) {
        if let Ok(mut core) = Core::new(alloc, program, &presolved) {
            is_so = is_taken(alloc, &mut core, case, is_rule);
            drop(core);
        }
    }
    drop(presolved);
    is_so
}

fn is_as(alloc: Global, case: &Case, is_rule: bool) -> bool {
    match program_of(alloc, case.text) {
        Some(program) => {
            let is_so = is_begun(alloc, &program, case, is_rule);
            drop(program);
            is_so
        }
        None => false,
    }
}

#[test]
fn splits_come_to(rt: HostRuntime) {
    for at in 0..CASES.len() {
        assert!(rt;
            is_as(rt.alloc(), &CASES[at], true) && is_as(rt.alloc(), &CASES[at], false),
            "case {at}"
        );
    }
}
