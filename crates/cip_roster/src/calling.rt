//! Calls of plugins, one after the other.
ghost use Rattle.std.specs.Prelude.{◌≡◌, ◌+◌, ◌*◌, ◌^◌, ◌≤◌, ◌<◌, [], true, take, IfOk, OnOk, OnErr, length, vec_len, vec_capacity, All};
ghost use Rattle.std.specs.List.Sorted.{IsPermutation, IsSorted};
ghost use Rattle.cip_plugin.specs.Asking.{asks, ask_of};
ghost use Rattle.cip_plugin.specs.declared.kinds.Kind.TheVariants as kinds;
ghost use Rattle.cip_plugin.specs.Calling.{Called, ids_of, is_ready, keys_from};
ghost use Rattle.cip_plugin.specs.Ranks.{rank_order};
ghost use Rattle.cip_roster.specs.KeptRankings.{IsRanking};
ghost use Rattle.cip_roster.specs.Turns.{IsSound, CanBeAsked, CalledBoth, CalledKind, handed};
ghost use Rattle.cip_roster.specs.Wished.{Ran};

use crate::rosters::Seated;
use crate::steps::Steps;
use crate::turns::turn;
use cip_plugin::{Given, Key, Kind, Question, View};
use std::alloc::{AllocError, Global};

/// The live and enabled plugins of a kind, in the order in which they are called. `Err` comes where a growth was
/// refused.
pub(crate) fn ranking<R: Steps>(
    roster: &R,
    alloc: Global,
    kind: Kind,
) -> Result<Vec<Key>, AllocError>
    requires { length (R.state roster.now).seats < 2 ^ 32 }
    ensures permutation { IfOk result (λ keys. IsPermutation
        (keys_from (is_ready kind) 0 (R.state roster.now).seats) keys.items) }
    ensures sorted { IfOk result (λ keys. IsSorted rank_order keys.items) }
{
    let mut keys = Vec::new(alloc);
    for id in 0..roster.count() {
        match roster.ready_key(id as u32, kind) {
            None => {}
            Some(key) => keys.push(key)?,
        }
    }
    keys.as_mut_slice().sort_unstable();
    Ok(keys)
}

/// The live and enabled plugins of a kind, in the order in which they are called: the ranking that is kept, or one that
/// is made; it is kept again as it is handed back. The state stays as it was; `Err` comes where a growth was refused.
pub(crate) fn ranked<R: Steps>(
    roster: &mut R,
    alloc: Global,
    kind: Kind,
) -> Result<Vec<Key>, AllocError>
    requires sound { IsSound (R.state roster.old) (R.room roster.old) }
    ensures sound { IsSound (R.state roster.new) (R.room roster.new) }
    ensures state { R.state roster.new ≡ R.state roster.old }
    ensures ranking { IfOk result (λ keys. IsRanking kind (R.state roster.old).seats keys.items) }
{
    match roster.take_ranking(kind) {
        Some(keys) => Ok(keys),
        None => ranking(roster, alloc, kind),
    }
}

/// Asks these plugins, one after the other, and puts what they give behind what is there. `given` has room for all.
fn call<R: Steps>(
    roster: &mut R,
    alloc: Global,
    keys: &[Key],
    question: Question<'_>,
    view: &View<'_>,
    given: &mut Vec<(u32, Given)>,
)
    requires ready { All (λ key. CanBeAsked (R.state roster.old) (ask_of question) key.id) keys.now }
    requires lines { 2 * length keys.now ≤ (R.room roster.old).lines }
    requires room { vec_len given.old + length keys.now ≤ vec_capacity given.old }
    ensures called { Called (ids_of keys.now) (ask_of question.entry) (R.state roster.old) (R.state roster.new)
        (handed given.old.items given.new.items) }
    ensures kept { take (length given.old.items) given.new.items ≡ given.old.items }
    ensures room { (R.room roster.old).lines ≤ (R.room roster.new).lines + 2 * length keys.now }
    ensures rankings { (R.room roster.new).rankings ≡ (R.room roster.old).rankings }
{
    for key in keys {
        match turn(roster, alloc, key.id, question, view) {
            None => {}
            Some(brought) => given.push_reserved((key.id, brought)),
        }
    }
}

/// Asks all live and enabled plugins of a kind, with room taken before the first of them: where a growth was refused,
/// nobody was called. What they give is put behind what is there.
pub(crate) fn call_kind<R: Steps>(
    roster: &mut R,
    alloc: Global,
    kind: Kind,
    question: Question<'_>,
    view: &View<'_>,
    given: &mut Vec<(u32, Given)>,
) -> Result<(), AllocError>
    requires sound { IsSound (R.state roster.old) (R.room roster.old) }
    requires fits { asks kind (ask_of question) ≡ true }
    ensures sound { IsSound (R.state roster.new) (R.room roster.new) }
    ensures called { OnOk result (CalledKind kind (ask_of question.entry) (R.state roster.old)
        (R.state roster.new) given.old.items given.new.items) }
    ensures err { OnErr result (R.state roster.new ≡ R.state roster.old) }
{
    let Ok(keys) = ranked(roster, alloc, kind) else {
        return Err(AllocError);
    };
    let count = keys.len();
    let Ok(()) = given.reserve(count) else {
        return Err(AllocError);
    };
    let Ok(()) = roster.reserve_turns(count) else {
        return Err(AllocError);
    };
    call(roster, alloc, keys.as_slice(), question, view, given);
    roster.keep_ranking(kind, keys);
    Ok(())
}

/// Asks all live and enabled plugins of one kind alone. `Err` comes where a growth was refused, and then nobody was
/// called.
pub(crate) fn call_one<R: Steps>(
    roster: &mut R,
    alloc: Global,
    kind: Kind,
    question: Question<'_>,
    view: &View<'_>,
) -> Result<Vec<(u32, Given)>, AllocError>
    requires sound { IsSound (R.state roster.old) (R.room roster.old) }
    requires fits { asks kind (ask_of question) ≡ true }
    ensures sound { IsSound (R.state roster.new) (R.room roster.new) }
    ensures called { IfOk result (λ given. CalledKind kind (ask_of question.entry)
        (R.state roster.old) (R.state roster.new) [] given.items) }
    ensures err { OnErr result (R.state roster.new ≡ R.state roster.old) }
{
    let mut given = Vec::new(alloc);
    match call_kind(roster, alloc, kind, question, view, &mut given) {
        Ok(()) => Ok(given),
        Err(fault) => {
            drop(given);
            Err(fault)
        }
    }
}

/// Asks all live and enabled plugins of a kind, and then the handlers. `Err` comes where a growth was refused: what was
/// called before it stands.
pub(crate) fn call_both<R: Steps>(
    roster: &mut R,
    alloc: Global,
    kind: Kind,
    question: Question<'_>,
    view: &View<'_>,
) -> Result<Vec<(u32, Given)>, AllocError>
    requires sound { IsSound (R.state roster.old) (R.room roster.old) }
    requires fits { asks kind (ask_of question) ≡ true }
    requires handlers { asks kinds.ConsHandler (ask_of question) ≡ true }
    ensures sound { IsSound (R.state roster.new) (R.room roster.new) }
    ensures called { IfOk result (λ given. CalledBoth kind (ask_of question.entry)
        (R.state roster.old) (R.state roster.new) given.items) }
    ensures err { OnErr result (Ran (R.state roster.old) (R.state roster.new)) }
{
    let Ok(mut given) = call_one(roster, alloc, kind, question, view) else {
        return Err(AllocError);
    };
    match call_kind(roster, alloc, Kind::ConsHandler, question, view, &mut given) {
        Ok(()) => Ok(given),
        Err(fault) => {
            drop(given);
            Err(fault)
        }
    }
}
