//! Texts of points that are read as a whole.
use crate::text_programs::{JOINED, cost_at, program_of};
use cip_input::point_of_text;
use cip_model::Program;
use std::alloc::Global;

/// The cost of the point of a text, in the minimised form; none where it is not feasible.
fn cost_of(alloc: Global, program: &Program, text: &str) -> Option<i128> {
    match point_of_text(alloc, text.as_bytes(), program) {
        Ok(point) => cost_at(program, point.as_slice()),
        Err(_) => None,
    }
}

/// A program maximises, and (2, 0, 1) is feasible at 13; (2, 0, 2) is not feasible.
fn are_read(alloc: Global) -> bool {
    match program_of(alloc, JOINED) {
        Some(program) => {
            let cost = cost_of(alloc, &program, "a 2\nb 0\nc 1\n");
            let none = cost_of(alloc, &program, "a 2\nb 0\nc 2\n");
            drop(program);
            cost == Some(-13) && none.is_none()
        }
        None => false,
    }
}

#[test]
fn points_are_read(rt: HostRuntime) {
    assert!(rt; are_read(rt.alloc()));
}
