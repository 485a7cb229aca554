//! The weights of held points.
ghost use Rattle.std.specs.Prelude.{◌≡◌, ◌-◌, ◌≤◌, length, map, take, drop, IfOk};
ghost use Rattle.cip_master.specs.declared.answers.PointWeight.{PointWeight};

use crate::answers::{PointWeight, Weights};
use cip_frac::Frac;
use std::alloc::{AllocError, Global};

/// Weights, each with the id of its point. `Err` where memory was refused.
fn named(alloc: Global, ids: &[u32], weights: &[Frac]) -> Result<Vec<PointWeight>, AllocError>
    requires { length weights.now ≡ length ids.now }
    ensures ids { IfOk result (λ named. map (λ (w : PointWeight). w.id) named.items ≡ ids.now) }
    ensures weights { IfOk result (λ named. map (λ (w : PointWeight). w.weight) named.items ≡ weights.now) }
{
    let mut named = Vec::new(alloc);
    for at in 0..ids.len() {
        named.push(PointWeight {
            id: ids[at],
            weight: weights[at],
        })?;
    }
    Ok(named)
}

/// The values of the columns of no block, and the weights behind them, with the ids of their points. `Err` where memory
/// was refused.
pub(crate) fn weights_of(alloc: Global, ids: &[u32], point: &[Frac]) -> Result<Weights, AllocError>
    requires { length ids.now ≤ length point.now }
    ensures free { IfOk result (λ weights. weights.free.items ≡ take (length point.now - length ids.now) point.now) }
    ensures ids { IfOk result (λ weights. map (λ (w : PointWeight). w.id) weights.points.items ≡ ids.now) }
    ensures points { IfOk result (λ weights. map (λ (w : PointWeight). w.weight) weights.points.items
        ≡ drop (length point.now - length ids.now) point.now) }
{
    let free = point.len() - ids.len();
    let points = named(alloc, ids, &point[free..])?;
    let free = Vec::from_slice(alloc, &point[..free])?;
    Ok(Weights { free, points })
}
