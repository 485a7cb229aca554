//! Reading a program from a store.
ghost use Rattle.std.specs.Prelude.{◌≡◌, MatchResult};
ghost use Rattle.cip_input.specs.ModelsRead.{Reads, ReadCause};

use crate::model_kinds::ModelKind;
use crate::pulling::read_text;
use crate::unread::Unread;
use cip_io::Store;
use cip_lp::LpText;
use cip_model::Program;
use cip_mps::MpsText;
use std::alloc::Global;

/// Reads the program of the text of this name: an LP text where the name ends in `.lp`, and else one of free MPS. The
/// text is pulled in pieces of at most 4,096 bytes to its end, or to byte 67,108,865, a faulty one too.
///
/// An `Err` says why there is no program: `Faulty` comes exactly where the text is faulty and all of it could be
/// pulled, with the first line that breaks a rule and the least kind that is broken there; `StoreFailed` where a call
/// of the store failed, so that its count of faults rose or stands at its last value; `NoMemory` where a growth was
/// refused, and then no call of the store failed. The texts that the store holds stay the same.
pub fn read_program<S: Store>(
    alloc: Global,
    store: &mut S,
    name: &str,
) -> Result<Program, Unread<ModelKind>>
    ensures answer { let text = (S.tells store.old).holds name.now in
        MatchResult result
        (Reads name.now text (S.tells store.old) (S.tells store.new))
        (ReadCause name.now text (S.tells store.old) (S.tells store.new)) }
    ensures holds { (S.tells store.new).holds ≡ (S.tells store.old).holds }
{
    if name.ends_with(".lp") {
        read_text::<S, LpText, ModelKind>(alloc, store, name, alloc)
    } else {
        read_text::<S, MpsText, ModelKind>(alloc, store, name, alloc)
    }
}
