//! The names of faults, as a trace shows them: of a fault that holds another, the inner one's.
use crate::judged::{JudgeFault, NodeFault};
use cip_cert::{CutFault, SplitFormFault};
use cip_core::{PostsolveFault, Verdict};
use cip_tree::SplitFault;

/// The name of a fault of a check.
fn cut_fault_name(fault: CutFault) -> &'static str {
    match fault {
        CutFault::TooLong => "TooLong",
        CutFault::UnknownRow { .. } => "UnknownRow",
        CutFault::UnknownColumn { .. } => "UnknownColumn",
        CutFault::NotInScope { .. } => "NotInScope",
        CutFault::WrongSign { .. } => "WrongSign",
        CutFault::NoSide { .. } => "NoSide",
        CutFault::Wide { .. } => "Wide",
        CutFault::NotWhole { .. } => "NotWhole",
        CutFault::NotPositive { .. } => "NotPositive",
        CutFault::NotImplied { .. } => "NotImplied",
    }
}

impl JudgeFault {
    /// The name of the fault, as a trace shows it: of a fault that holds another, the inner one's.
    pub fn name(self) -> &'static str {
        match self {
            JudgeFault::Node(NodeFault::BadLength) => "BadLength",
            JudgeFault::Node(NodeFault::NoSuchColumn) => "NoSuchColumn",
            JudgeFault::Node(NodeFault::TooFar) => "TooFar",
            JudgeFault::Check(inner) => cut_fault_name(inner),
            JudgeFault::Full => "Full",
            JudgeFault::Postsolve(PostsolveFault::Wide) => "Wide",
            JudgeFault::Postsolve(PostsolveFault::NoMemory) => "NoMemory",
            JudgeFault::Offer(Verdict::Feasible(_)) => "Feasible",
            JudgeFault::Offer(Verdict::BreaksBound { .. }) => "BreaksBound",
            JudgeFault::Offer(Verdict::BreaksWhole { .. }) => "BreaksWhole",
            JudgeFault::Offer(Verdict::BreaksRow { .. }) => "BreaksRow",
            JudgeFault::Offer(Verdict::Wide { .. }) => "Wide",
            JudgeFault::Split(SplitFault::NotWhole) => "NotWhole",
            JudgeFault::Split(SplitFault::Outside) => "Outside",
            JudgeFault::Split(SplitFault::NoMemory) => "NoMemory",
            JudgeFault::SplitForm(SplitFormFault::FormOrder { .. }) => "FormOrder",
            JudgeFault::SplitForm(SplitFormFault::UnknownColumn { .. }) => "UnknownColumn",
            JudgeFault::SplitForm(SplitFormFault::NotWhole { .. }) => "NotWhole",
            JudgeFault::SplitForm(SplitFormFault::Negative { .. }) => "Negative",
            JudgeFault::SplitForm(SplitFormFault::FormWide) => "FormWide",
            JudgeFault::SplitForm(SplitFormFault::Left(inner)) => cut_fault_name(inner),
            JudgeFault::SplitForm(SplitFormFault::Right(inner)) => cut_fault_name(inner),
            JudgeFault::SplitForm(SplitFormFault::Differs { .. }) => "Differs",
        }
    }
}
