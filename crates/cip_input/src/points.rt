//! Reading a text of a point from a store.
ghost use Rattle.std.specs.Prelude.{◌≡◌, MatchResult};
ghost use Rattle.cip_input.specs.PointsRead.{ReadsPoint, PointCause};

use crate::pulling::read_text;
use crate::unread::Unread;
use crate::{PointKind, PointText};
use cip_frac::Frac;
use cip_io::Store;
use cip_model::Program;
use std::alloc::Global;

/// Reads the point of a program from the text of this name. The text is pulled in pieces of at most 4,096 bytes to its
/// end, or to byte 67,108,865, a faulty one too.
///
/// An `Err` says why there is no point: `Faulty` comes exactly where the text is faulty and all of it could be pulled,
/// with the first line that breaks a rule and the least kind that is broken there; `StoreFailed` where a call of the
/// store failed, so that its count of faults rose or stands at its last value; `NoMemory` where a growth was refused,
/// and then no call of the store failed. The texts that the store holds stay the same.
pub fn read_point<S: Store>(
    alloc: Global,
    store: &mut S,
    name: &str,
    program: &Program,
) -> Result<Vec<Frac>, Unread<PointKind>>
    ensures answer { let text = (S.tells store.old).holds name.now in
        MatchResult result
        (λ point. ReadsPoint program.now text (S.tells store.old) (S.tells store.new) point.items)
        (PointCause program.now text (S.tells store.old) (S.tells store.new)) }
    ensures holds { (S.tells store.new).holds ≡ (S.tells store.old).holds }
{
    read_text::<S, PointText<'_>, PointKind>(alloc, store, name, (alloc, program))
}
