//! Rows and boxes.
use cip_frac::Frac;
use cip_lin::{Bounds, Row, RowFault, Sides, Term};
use std::alloc::Global;

fn term(col: u32, coef: i64) -> Term {
    Term {
        col,
        coef: Frac::from(coef),
    }
}

/// Columns and coefficients of two terms, and why they are no row.
const ROWS: [((u32, i64), (u32, i64), Option<RowFault>); 3] = [
    ((0, 2), (1, 3), None),
    ((1, 2), (0, 3), Some(RowFault::NotRising { at: 1 })),
    ((0, 0), (1, 3), Some(RowFault::ZeroTerm { at: 0 })),
];

fn comes_to(alloc: Global, first: Term, second: Term, want: Option<RowFault>) -> bool {
    match (
        Row::build(alloc, &[first, second], None, Some(Frac::from(5))),
        want,
    ) {
        (Ok(_), None) => true,
        (Err(fault), Some(wanted)) => fault == wanted,
        _ => false,
    }
}

#[test]
fn rows_rise_and_have_no_zero(rt: HostRuntime) {
    for at in 0..ROWS.len() {
        let ((col, coef), (next, other), want) = ROWS[at];
        assert!(rt;
            comes_to(rt.alloc(), term(col, coef), term(next, other), want),
            "case {at}"
        );
    }
}

fn is_new_box_open(alloc: Global) -> bool {
    let open = [Sides::open(), Sides::open(), Sides::open()];
    match Bounds::new(alloc, 3) {
        Ok(bounds) => bounds.as_slice() == open.as_slice(),
        Err(_) => false,
    }
}

#[test]
fn a_new_box_is_open(rt: HostRuntime) {
    assert!(rt; is_new_box_open(rt.alloc()));
}
