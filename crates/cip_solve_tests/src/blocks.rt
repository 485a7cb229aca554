//! The rows and columns of blocks that a text names.
use crate::text_programs::{APART, program_of};
use cip_blocks::read_blocks;
use cip_model::{Blocks, Program};
use std::alloc::Global;

/// What a text says of the program of three rows.
#[derive(Clone, Copy)]
enum Told {
    /// The block of this number, from 0, has so many rows and columns.
    Block(usize, usize, usize),
    /// So many rows are master rows, and so many columns are of no block.
    Rest(usize, usize),
}

/// Rows on columns of their own.
const TWO: &str = "\\ three\nNBLOCKS 02\nBLOCK 1\nR1\nBLOCK 2 R2\n";

/// Two rows in one block.
const ONE: &str = "NBLOCKS 1\nBLOCK 1\nR2\nR3\n";

static CASES: [(&str, Told); 4] = [
    (TWO, Told::Block(0, 1, 1)),
    (TWO, Told::Block(1, 1, 2)),
    (TWO, Told::Rest(1, 1)),
    (ONE, Told::Block(0, 2, 3)),
];

fn says(blocks: &Blocks, want: Told) -> bool {
    match want {
        Told::Block(block, rows, columns) => {
            block < blocks.count()
                && blocks.rows(block).len() == rows
                && blocks.columns(block).len() == columns
        }
        Told::Rest(rows, columns) => {
            blocks.master_rows().len() == rows && blocks.free_columns().len() == columns
        }
    }
}

fn is_told(alloc: Global, program: &Program, text: &str, want: Told) -> bool {
    match read_blocks(alloc, text.as_bytes(), program) {
        Ok(blocks) => {
            let is_so = says(&blocks, want);
            drop(blocks);
            is_so
        }
        Err(_) => false,
    }
}

/// The first case that is wrong; their number where there is none.
fn first_wrong(alloc: Global, program: &Program) -> usize {
    for at in 0..CASES.len() {
        if !is_told(alloc, program, CASES[at].0, CASES[at].1) {
            return at;
        }
    }
    CASES.len()
}

fn are_read(alloc: Global) -> bool {
    match program_of(alloc, APART) {
        Some(program) => {
            let wrong = first_wrong(alloc, &program);
            drop(program);
            wrong == CASES.len()
        }
        None => false,
    }
}

#[test]
fn blocks_are_read(rt: HostRuntime) {
    assert!(rt; are_read(rt.alloc()));
}
