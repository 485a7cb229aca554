//! Pulling a text from a store, piece by piece.
ghost use Rattle.std.specs.Prelude.{◌≡◌, ◌<◌, ◌≤◌, ◌⊎◌, ℕ, [], MatchResult, Ok, Err, IfOk, length, ⊤};
ghost use Rattle.cip_io.specs.Store.{StoreTells};
ghost use Rattle.cip_blocks.specs.PieceReaders.{HasTaken};
ghost use Rattle.cip_blocks.specs.ReadFault.{ReadFault};
ghost use Rattle.cip_text.specs.declared.piece_reader.PieceReader.{PieceReader};
ghost use Rattle.cip_input.specs.TextPulls.{IsReading, ReadsPiece, IsAllRead, PullCause};
ghost use Rattle.cip_input.specs.Unreads.{IsUnread};
ghost use Rattle.cip_input.specs.declared.pulling.TheConstants.{PIECE};

use crate::unread::Unread;
use cip_blocks::{PieceReader, PieceText, ReadFault};
use cip_io::Store;
use cip_model::LONGEST_TEXT;
use std::alloc::Global;

/// The most bytes that are pulled at once.
pub(crate) const PIECE: usize = 4_096;

/// Pulls the next piece of the current text and reads it; how many bytes came. That the text is faulty is left to its
/// end: an `Err` tells no fault of the text, so it may be one of any kinds `K`.
fn read_piece<S: Store, T: PieceText + Drop, K>(
    store: &mut S,
    reader: &mut PieceReader<T>,
    buffer: &mut [u8],
) -> Result<usize, Unread<K>>
where
    T::Kind: Drop,
    requires { 0 < length buffer.old }
    ensures read { (subject : T.Subject) (chosen : StoreTells) (pulled : ℕ)
        → IsReading (HasTaken T.has_come T.subject reader.old subject) chosen (S.tells store.old) pulled
        → MatchResult result
        (ReadsPiece (HasTaken T.has_come T.subject reader.new subject) chosen (S.tells store.new) pulled) (λ _. ⊤) }
    ensures within { IfOk result (λ count. count ≤ length buffer.old) }
    ensures size { length buffer.new ≡ length buffer.old }
    ensures cause { MatchResult result (λ _. (S.tells store.new).faults ≡ (S.tells store.old).faults)
        (PullCause (S.tells store.old) (S.tells store.new)) }
    ensures holds { (S.tells store.new).holds ≡ (S.tells store.old).holds }
{
    let count = store.pull(buffer)?;
    match reader.feed(&buffer[..count]) {
        Ok(()) => Ok(count),
        Err(ReadFault::Faulty(_)) => Ok(count),
        Err(ReadFault::NoMemory) => Err(Unread::NoMemory),
    }
}

/// Pulls the current text to its end, or to the first byte past the limit, and reads it. An `Err` tells no fault of the
/// text, so it may be one of any kinds `K`.
fn read_pieces<S: Store, T: PieceText + Drop, K>(
    store: &mut S,
    reader: &mut PieceReader<T>,
    buffer: &mut [u8],
) -> Result<(), Unread<K>>
where
    T::Kind: Drop,
    requires room { length buffer.old ≡ PIECE }
    ensures read { (subject : T.Subject) → HasTaken T.has_come T.subject reader.old subject [] → MatchResult result
        (λ _. IsAllRead (HasTaken T.has_come T.subject reader.new subject) (S.tells store.old) (S.tells store.new))
        (λ _. ⊤) }
    ensures cause { MatchResult result (λ _. ⊤) (PullCause (S.tells store.old) (S.tells store.new)) }
    ensures holds { (S.tells store.new).holds ≡ (S.tells store.old).holds }
{
    let mut pulled = 0usize;
    while pulled <= LONGEST_TEXT {
        let room = PIECE.min(LONGEST_TEXT + 1 - pulled);
        let count = read_piece(store, reader, &mut buffer[..room])?;
        if count == 0 {
            return Ok(());
        }
        pulled += count;
    }
    Ok(())
}

/// Reads the text of this name, with what such a text is begun with: what it gives, or its first fault, as one of the
/// kinds `K`.
pub(crate) fn read_text<S: Store, T: PieceText + Drop, K: From<T::Kind>>(
    alloc: Global,
    store: &mut S,
    name: &str,
    start: T::Start,
) -> Result<T::Value, Unread<K>>
where
    T::Start: Drop,
    T::Kind: Drop,
    ensures read { let chosen = record (S.tells store.old) { left = (S.tells store.old).holds name.now } in
        (subject : T.Subject) → ((reader : PieceReader T) → T.begins start reader.text
        → HasTaken T.has_come T.subject reader subject []) → MatchResult result
        (λ value. IsAllRead (λ bytes. T.is_given subject bytes (Ok value)) chosen (S.tells store.new))
        (λ cause. PullCause chosen (S.tells store.new) cause ⊎ ((fault : ReadFault T.Kind)
        × IsUnread K.from_gives fault cause
        × IsAllRead (λ bytes. T.is_given subject bytes (Err fault)) chosen (S.tells store.new))) }
    ensures holds { (S.tells store.new).holds ≡ (S.tells store.old).holds }
{
    let Ok(mut buffer) = vec![in alloc; 0u8; PIECE] else {
        return Err(Unread::NoMemory);
    };
    match store.choose(name) {
        Ok(()) => (),
        Err(_) => return Err(Unread::StoreFailed),
    }
    let mut reader = PieceReader::new(start);
    match read_pieces::<S, T, K>(store, &mut reader, buffer.as_mut_slice()) {
        Ok(()) => (),
        Err(unread) => {
            drop(reader);
            return Err(unread);
        }
    }
    match reader.finish() {
        Ok(value) => Ok(value),
        Err(fault) => Err(Unread::from(fault)),
    }
}
