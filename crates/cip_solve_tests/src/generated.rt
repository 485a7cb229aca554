//! Programs that are drawn from a seed.
use cip_frac::Frac;
use cip_input::{MOST_DRAWN, entries, generate};
use cip_model::{Program, Verdict};
use std::alloc::Global;

/// The seed, with how many columns and rows.
type Drawn = (u64, usize, usize);

/// What is drawn, the sum of the costs in the text, and the number of entries, as another program works them out.
static CASES: [(Drawn, i64, usize); 7] = [
    ((0, 0, 0), 0, 0),
    ((0, 1, 0), 15, 0),
    ((1, 1, 0), 9, 0),
    ((0, 2, 2), 25, 3),
    ((3, 6, 4), 74, 21),
    ((u64::MAX, 3, 2), 42, 6),
    ((3, 256, 256), 2981, 58_977),
];

fn program_of(alloc: Global, (seed, cols, rows): Drawn) -> Option<Program> {
    if cols > MOST_DRAWN || rows > MOST_DRAWN {
        return None;
    }
    generate(alloc, seed, cols, rows).ok()
}

/// The verdict on the point of ones, where there is room for it.
fn at_ones(alloc: Global, program: &Program) -> Option<Verdict> {
    match vec![in alloc; Frac::one(); program.columns()] {
        Ok(point) => Some(program.check(point.as_slice())),
        Err(_) => None,
    }
}

/// The point of ones is feasible at the sum of the costs, and there are so many entries.
fn is_drawn(alloc: Global, drawn: Drawn, costs: i64, wanted: usize) -> bool {
    match program_of(alloc, drawn) {
        Some(program) => {
            let count = entries(&program);
            let verdict = at_ones(alloc, &program);
            drop(program);
            count == wanted && verdict == Some(Verdict::Feasible(Frac::from(costs).neg()))
        }
        None => false,
    }
}

#[test]
fn programs_are_drawn(rt: HostRuntime) {
    for at in 0..CASES.len() {
        let (drawn, costs, wanted) = CASES[at];
        assert!(rt; is_drawn(rt.alloc(), drawn, costs, wanted), "case {at}");
    }
}
