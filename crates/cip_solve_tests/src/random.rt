//! Random programs: the search of the reduced program ends as that of the whole one does, and its point comes back as a
//! feasible one of equal cost.
use crate::drawn::Sheet;
use crate::endings::{Ending, end_of_search, searched};
use crate::programs::program_of;
use cip_model::{Program, Verdict};
use cip_presolve::{PresolveEnd, Presolved, postsolve, presolve, presolve_all};
use cip_report::Held;
use std::alloc::{AllocError, Global};

/// How many programs are drawn.
const PROGRAMS: u64 = 2_000;

/// The point that is held of a reduced program comes back as a feasible one of equal cost.
fn comes_back(alloc: Global, program: &Program, presolved: &Presolved, held: &Held) -> bool {
    let Ok(point) = postsolve(alloc, &presolved.steps, held.point.as_slice()) else {
        return false;
    };
    if point.len() != program.columns() {
        return false;
    }
    program.check(point.as_slice()) == Verdict::Feasible(held.cost)
}

/// The search of a reduced program ends so, and what it holds comes back.
fn ends_so(alloc: Global, program: &Program, presolved: &Presolved, ending: Ending) -> bool {
    let (reduced, best) = searched(alloc, &presolved.reduced);
    let is_so = match &best {
        _ if reduced != ending => false,
        None => true,
        Some(held) => comes_back(alloc, program, presolved, held),
    };
    drop(best);
    is_so
}

/// What presolve answers agrees with what the search of the whole program ends with.
fn agrees(
    alloc: Global,
    program: &Program,
    answer: Result<PresolveEnd, AllocError>,
    ending: Ending,
) -> bool {
    match answer {
        Err(_) => false,
        Ok(PresolveEnd::NoPoint { .. }) => ending == Ending::Infeasible,
        Ok(PresolveEnd::Reduced(presolved)) => {
            let is_so = ends_so(alloc, program, &presolved, ending);
            drop(presolved);
            is_so
        }
    }
}

/// The program of a number.
fn drawn(alloc: Global, number: u64) -> Option<Program> {
    let sheet = Sheet::new(alloc, number);
    let program = match sheet.text() {
        Some(text) => program_of(alloc, text),
        None => None,
    };
    drop(sheet);
    program
}

/// Both presolves of the program of a number agree with its search.
fn both_agree(alloc: Global, number: u64) -> bool {
    let Some(program) = drawn(alloc, number) else {
        return false;
    };
    let ending = end_of_search(alloc, &program);
    let is_so = ending != Ending::Other
        && agrees(alloc, &program, presolve(alloc, &program), ending)
        && agrees(alloc, &program, presolve_all(alloc, &program), ending);
    drop(program);
    is_so
}

/// The first program of which one doesn't; their number where there is none.
fn first_wrong(alloc: Global) -> u64 {
    for number in 0..PROGRAMS {
        if !both_agree(alloc, number) {
            return number;
        }
    }
    PROGRAMS
}

#[test]
fn reduced_programs_end_alike(rt: HostRuntime) {
    assert_eq!(rt; first_wrong(rt.alloc()), PROGRAMS);
}
