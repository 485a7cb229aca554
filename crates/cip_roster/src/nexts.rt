//! Calls of one plugin at a time: the next behind one that was called before.
ghost use Rattle.std.specs.Prelude.{◌≡◌, IfOk, OnErr, true};
ghost use Rattle.std.specs.List.{find};
ghost use Rattle.cip_plugin.specs.Asking.{asks, ask_of};
ghost use Rattle.cip_roster.specs.Turns.{IsSound};
ghost use Rattle.cip_roster.specs.Nexts.{CalledNext, is_behind};

use crate::calling::ranked;
use crate::rosters::Seated;
use crate::steps::Steps;
use crate::turns::turn;
use cip_plugin::{Given, Key, Kind, Question, View};
use std::alloc::{AllocError, Global};

/// Whether a key comes behind another one; each does where no other is named.
fn is_behind(after: Option<Key>, key: Key) -> bool
    ensures { result ≡ is_behind after key }
{
    match after {
        None => true,
        Some(other) => other < key,
    }
}

/// The first of some keys that comes behind another one.
fn first_behind(keys: &[Key], after: Option<Key>) -> Option<Key>
    ensures { result ≡ find (is_behind after) keys.now }
{
    for key in keys {
        if is_behind(after, *key) {
            return Some(*key);
        }
    }
    None
}

/// Asks the next plugin of a kind. `Err` comes where a growth was refused, and then nobody was called.
pub(crate) fn call_next<R: Steps>(
    roster: &mut R,
    alloc: Global,
    kind: Kind,
    question: Question<'_>,
    after: Option<u32>,
    view: &View<'_>,
) -> Result<Option<(u32, Option<Given>)>, AllocError>
    requires sound { IsSound (R.state roster.old) (R.room roster.old) }
    requires fits { asks kind (ask_of question) ≡ true }
    ensures sound { IsSound (R.state roster.new) (R.room roster.new) }
    ensures called { IfOk result (λ gave. CalledNext kind (ask_of question.entry) after
        (R.state roster.old) (R.state roster.new) gave) }
    ensures err { OnErr result (R.state roster.new ≡ R.state roster.old) }
{
    let Ok(keys) = ranked(roster, alloc, kind) else {
        return Err(AllocError);
    };
    let found = first_behind(keys.as_slice(), roster.key(after));
    roster.keep_ranking(kind, keys);
    let Some(key) = found else {
        return Ok(None);
    };
    let Ok(()) = roster.reserve_turns(1) else {
        return Err(AllocError);
    };
    Ok(Some((key.id, turn(roster, alloc, key.id, question, view))))
}
