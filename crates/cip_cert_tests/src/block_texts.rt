//! Programs that fall into blocks.

/// Two blocks, whose columns are 0 or 1: 2 x1 + 2 x2 is at most 3, and 2 y1 + 2 y2. The costs are -2, -1, -2 and -1,
/// and R3, which is of no block, is at most 3.
pub const PLAIN: &str =
    "Minimize\n COST: - 2 x1 - x2 - 2 y1 - y2\nSubject To\n R1: 2 x1 + 2 x2 <= 3\n\
    \x20R2: 2 y1 + 2 y2 <= 3\n R3: x1 + x2 + y1 + y2 <= 3\nBinaries\n x1 x2 y1 y2\nEnd\n";

/// The same with R3 at least 3, which no points of the blocks come to.
pub const MORE: &str =
    "Minimize\n COST: - 2 x1 - x2 - 2 y1 - y2\nSubject To\n R1: 2 x1 + 2 x2 <= 3\n\
    \x20R2: 2 y1 + 2 y2 <= 3\n R3: x1 + x2 + y1 + y2 >= 3\nBinaries\n x1 x2 y1 y2\nEnd\n";

/// The same with 2 x1 + 2 x2 at least 5, so that the first block has no point.
pub const NONE: &str =
    "Minimize\n COST: - 2 x1 - x2 - 2 y1 - y2\nSubject To\n R1: 2 x1 + 2 x2 >= 5\n\
    \x20R2: 2 y1 + 2 y2 <= 3\n R3: x1 + x2 + y1 + y2 <= 3\nBinaries\n x1 x2 y1 y2\nEnd\n";

/// Their blocks.
pub const BLOCKS: &str = "NBLOCKS 2\nBLOCK 1\nR1\nBLOCK 2\nR2\nMASTERCONSS\nR3\n";

/// A program at random, of 2 blocks of 3 columns.
pub const FIRST: &str = "Minimize\n COST: + 2 x0_0 - 4 x0_1 - x1_0 - 3 x1_1 - 8 x1_2\nSubject To\n\
    \x20R0_0: + 5 x0_0 + 2 x0_1 + 4 x0_2 <= 5\n R0_1: + 4 x0_0 + 5 x0_1 + 3 x0_2 <= 6\n\
    \x20R1_0: + 5 x1_0 + 4 x1_1 + 5 x1_2 <= 7\n R1_1: + 3 x1_0 + x1_1 + x1_2 <= 2\n\
    \x20M0: + 2 x0_0 + 3 x0_1 + 2 x0_2 + 3 x1_0 + 3 x1_1 + x1_2 <= 3\nBinaries\nx0_0 x0_1 x0_2 x1_0 x1_1 x1_2\n\
    End\n";

/// Its blocks.
pub const FIRST_BLOCKS: &str =
    "NBLOCKS 2\nBLOCK 1\nR0_0\nR0_1\nBLOCK 2\nR1_0\nR1_1\nMASTERCONSS\nM0\n";

/// A program at random, of 2 blocks of 4 columns.
pub const SECOND: &str =
    "Minimize\n COST: - 8 x0_0 - 9 x0_1 - 5 x0_2 + 9 x0_3 + 6 x1_0 + 2 x1_1 + x1_2 - 9 x1_3\nSubject To\n\
    \x20R0_0: + 3 x0_0 + 4 x0_1 + 2 x0_2 + 4 x0_3 <= 6\n R0_1: + 5 x0_0 + 5 x0_1 + x0_2 + 2 x0_3 <= 6\n\
    \x20R1_0: + 5 x1_0 + 5 x1_1 + 3 x1_2 + 5 x1_3 <= 9\n R1_1: + x1_0 + 4 x1_1 + 3 x1_2 + x1_3 <= 4\n\
    \x20M0: + 2 x0_0 + 3 x0_1 + 2 x0_2 + 3 x0_3 + x1_1 + 2 x1_2 <= 3\n\
    \x20M1: + x0_1 + 2 x0_2 + 3 x0_3 + x1_0 + 2 x1_2 + x1_3 <= 2\nBinaries\n\
    x0_0 x0_1 x0_2 x0_3 x1_0 x1_1 x1_2 x1_3\nEnd\n";

/// Its blocks.
pub const SECOND_BLOCKS: &str =
    "NBLOCKS 2\nBLOCK 1\nR0_0\nR0_1\nBLOCK 2\nR1_0\nR1_1\nMASTERCONSS\nM0\nM1\n";

/// A program at random, of 3 blocks of 4 columns.
pub const THIRD: &str = "Minimize\n\
    \x20COST: - 5 x0_0 - 4 x0_1 - 9 x0_2 + x0_3 + 7 x1_0 + 5 x1_1 - 7 x1_2 + x1_3 + 8 x2_0 - 8 x2_1 + 3 x2_2 -\
    \x204 x2_3\nSubject To\n R0_0: + 4 x0_0 + 4 x0_1 + 2 x0_2 + 2 x0_3 <= 6\n\
    \x20R0_1: + 2 x0_0 + x0_1 + x0_2 + 2 x0_3 <= 3\n R1_0: + 5 x1_0 + 5 x1_1 + x1_2 + 4 x1_3 <= 7\n\
    \x20R1_1: + x1_0 + 3 x1_1 + 2 x1_2 + 2 x1_3 <= 4\n R2_0: + 4 x2_0 + x2_1 + 3 x2_2 + 2 x2_3 <= 5\n\
    \x20R2_1: + 4 x2_0 + 3 x2_1 + 3 x2_2 + x2_3 <= 5\n\
    \x20M0: + x0_0 + 3 x0_2 + 3 x1_0 + 3 x1_1 + x1_2 + x2_0 + 3 x2_1 <= 3\n\
    \x20M1: + x0_1 + x0_2 + 2 x0_3 + x1_2 + 3 x2_1 + x2_2 + 3 x2_3 <= 3\nBinaries\n\
    x0_0 x0_1 x0_2 x0_3 x1_0 x1_1 x1_2 x1_3 x2_0 x2_1 x2_2 x2_3\nEnd\n";

/// Its blocks.
pub const THIRD_BLOCKS: &str =
    "NBLOCKS 3\nBLOCK 1\nR0_0\nR0_1\nBLOCK 2\nR1_0\nR1_1\nBLOCK 3\nR2_0\nR2_1\n\
    MASTERCONSS\nM0\nM1\n";
