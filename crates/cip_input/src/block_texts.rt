//! Reading a text of blocks from a store.
ghost use Rattle.std.specs.Prelude.{◌≡◌, MatchResult};
ghost use Rattle.cip_input.specs.BlocksRead.{ReadsBlocks, BlocksCause};

use crate::pulling::read_text;
use crate::unread::Unread;
use cip_blocks::{BlockKind, BlockText};
use cip_io::Store;
use cip_model::{Blocks, Program};
use std::alloc::Global;

/// Reads the blocks of a program from the text of this name. The text is pulled in pieces of at most 4,096 bytes to its
/// end, or to byte 67,108,865, a faulty one too.
///
/// An `Err` says why there are no blocks: `Faulty` comes exactly where the text is faulty and all of it could be
/// pulled, with the first line that breaks a rule and the least kind that is broken there; `StoreFailed` where a call
/// of the store failed, so that its count of faults rose or stands at its last value; `NoMemory` where a growth was
/// refused, and then no call of the store failed. The texts that the store holds stay the same.
pub fn read_blocks<S: Store>(
    alloc: Global,
    store: &mut S,
    name: &str,
    program: &Program,
) -> Result<Blocks, Unread<BlockKind>>
    ensures answer { let text = (S.tells store.old).holds name.now in
        MatchResult result
        (ReadsBlocks program.now text (S.tells store.old) (S.tells store.new))
        (BlocksCause program.now text (S.tells store.old) (S.tells store.new)) }
    ensures holds { (S.tells store.new).holds ≡ (S.tells store.old).holds }
{
    read_text::<S, BlockText<'_>, BlockKind>(alloc, store, name, (alloc, program))
}
