//! The index of a pool: the ids of its rows by their fingerprints.
ghost use Rattle.std.specs.Prelude.{◌≡◌, ◌≢◌, ◌<◌, ◌≤◌, length, All, MatchOption, MatchBool};
ghost use Rattle.std.specs.List.{AllWithin, HoldsAt};
ghost use Rattle.cip_cert.specs.Pool.{AreRising};
ghost use Rattle.cip_rows.specs.Mixed.{fingerprint};
ghost use Rattle.cip_rows.specs.RowIndex.{AreSorted, IsIndex};
ghost use Rattle.cip_rows.specs.RowPools.{HaveScopesLike, IsKnown, IsUnknown, Serves};

use crate::built::is_same;
use cip_cert::{Bounds, PoolRow, Row};

/// A row that is held, by its fingerprint and its id, and whether it rests on the cutoff row.
#[derive(Clone, Copy)]
pub(crate) struct Entry {
    pub(crate) print: u64,
    pub(crate) id: u64,
    pub(crate) rests: bool,
}

/// The place of the first entry whose fingerprint is at least this one, or the number of entries.
pub(crate) fn first_from(entries: &[Entry], print: u64) -> usize
    requires { AreSorted entries.now }
    ensures within { result ≤ length entries.now }
    ensures before { AllWithin (λ entry. entry.print < print) entries.now 0 result }
    ensures after { AllWithin (λ entry. print ≤ entry.print) entries.now result (length entries.now) }
{
    entries.partition_point(|entry| entry.print < print)
}

/// The place of the row with this id, if it is held.
fn place_of(rows: &[PoolRow], id: u64) -> Option<usize>
    requires { AreRising rows.now }
    ensures { MatchOption result (All (λ kept. kept.id ≢ id) rows.now)
        (λ place. (place < length rows.now) × HoldsAt (λ kept. kept.id ≡ id) rows.now place) }
{
    let place = rows.partition_point(|kept| kept.id < id);
    if place < rows.len() && rows[place].id == id {
        Some(place)
    } else {
        None
    }
}

/// Whether the row with this id is held, is equal to this row, and its scope holds this box.
fn is_known_as(rows: &[PoolRow], id: u64, row: &Row, scope: &Bounds) -> bool
    requires rising { AreRising rows.now }
    requires scopes { HaveScopesLike scope.now rows.now }
    ensures { MatchBool result (IsKnown rows.now row.now scope.now id)
        (All (λ kept. kept.id ≡ id → ¬ Serves row.now scope.now kept) rows.now) }
{
    match place_of(rows, id) {
        None => false,
        Some(place) => is_same(&rows[place].row, row) && scope.inside(&rows[place].scope),
    }
}

/// The id of a row that is equal to this row, which has this fingerprint, and whose scope holds this box.
pub(crate) fn known(
    rows: &[PoolRow],
    entries: &[Entry],
    print: u64,
    row: &Row,
    scope: &Bounds,
) -> Option<u64>
    requires rising { AreRising rows.now }
    requires scopes { HaveScopesLike scope.now rows.now }
    requires entries { IsIndex rows.now entries.now }
    requires print { print ≡ fingerprint row.now }
    ensures { MatchOption result (IsUnknown rows.now row.now scope.now) (IsKnown rows.now row.now scope.now) }
{
    for at in first_from(entries, print)..entries.len() {
        let entry = entries[at];
        if entry.print != print {
            return None;
        }
        if is_known_as(rows, entry.id, row, scope) {
            return Some(entry.id);
        }
    }
    None
}
