//! The names of rows in combinations.
ghost use Rattle.std.specs.Prelude.{◌≡◌, map};
ghost use Rattle.cip_relax.specs.NodeRows.{named_multiple};

use cip_lin::{Combo, RowId, RowMultiple};

/// A multiple with its row named, which is one of a linear program of which so many rows are the program's own and the
/// others of the pool, with these ids.
fn named_multiple(own: usize, ids: &[u64], multiple: RowMultiple) -> RowMultiple
    ensures { result ≡ named_multiple own ids.now multiple }
{
    let RowId::Own(number) = multiple.row else {
        return multiple;
    };
    let place = number as usize;
    if place < own {
        return multiple;
    }
    match ids.get(place - own) {
        Some(id) => RowMultiple {
            row: RowId::Pool(*id),
            factor: multiple.factor,
        },
        None => multiple,
    }
}

/// Names the rows of a combination.
pub(crate) fn name_combo(own: usize, ids: &[u64], combo: &mut Combo)
    ensures rows { combo.new.rows.items ≡ map (named_multiple own ids.now) combo.old.rows.items }
    ensures lows { combo.new.lows.items ≡ combo.old.lows.items }
    ensures highs { combo.new.highs.items ≡ combo.old.highs.items }
{
    for at in 0..combo.rows.len() {
        let multiple = combo.rows[at];
        combo.rows[at] = named_multiple(own, ids, multiple);
    }
}
