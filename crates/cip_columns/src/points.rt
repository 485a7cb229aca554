//! Points that are held.
ghost use Rattle.std.specs.Prelude.{◌≡◌, ◌↔◌, IsTrue};
ghost use Rattle.cip_columns.specs.ColumnPools.{Serves, is_inside};

use cip_cert::Sides;
use cip_frac::Frac;
use std::marker::Model;

/// A point that a pool holds. Contracts see its id, its block and its values.
#[derive(Drop)]
pub struct HeldPoint {
    id: u32,
    block: u32,
    values: Vec<Frac>,
}

impl Model for HeldPoint {
    ghost use Rattle.cip_columns.specs.PoolPoints.{PoolPoint, pool_point_code};

    ghost Value = { PoolPoint };

    ghost coded = { pool_point_code };

    ghost view = { λ h. record { id = h.id; block = h.block; point = h.values.items } };
}

/// Whether two values are equal.
fn is_same(a: Frac, b: Frac) -> bool
    ensures { IsTrue result ↔ (a ≡ b) }
{
    a == b
}

/// Whether two lists of values are equal.
fn are_same(a: &[Frac], b: &[Frac]) -> bool
    ensures { IsTrue result ↔ (a.now ≡ b.now) }
{
    if a.len() != b.len() {
        return false;
    }
    for at in 0..a.len() {
        if !is_same(a[at], b[at]) {
            return false;
        }
    }
    true
}

/// Whether a list of values is in a box: it has one for each column, between its sides.
pub(crate) fn is_inside(sides: &[Sides], values: &[Frac]) -> bool
    ensures { result ≡ is_inside sides.now values.now }
{
    if sides.len() != values.len() {
        return false;
    }
    for at in 0..sides.len() {
        if !sides[at].contains(values[at]) {
            return false;
        }
    }
    true
}

impl HeldPoint {
    /// The point of a block with this id.
    pub(crate) fn new(id: u32, block: u32, values: Vec<Frac>) -> HeldPoint
        ensures { result ≡ record { id = id; block = block; point = values.items } }
    {
        HeldPoint { id, block, values }
    }

    /// Its id.
    pub fn id(&self) -> u32
        ensures { result ≡ self.now.id }
    {
        self.id
    }

    /// The block, by its number from 0.
    pub fn block(&self) -> u32
        ensures { result ≡ self.now.block }
    {
        self.block
    }

    /// A value for each column of the block, by rising number of the column.
    pub fn values(&self) -> &[Frac]
        ensures { result.now ≡ self.now.point }
    {
        self.values.as_slice()
    }

    /// Whether this is a point of a block with these values.
    pub(crate) fn is(&self, block: u32, values: &[Frac]) -> bool
        ensures { IsTrue result ↔ Serves block values.now self.now }
    {
        self.block == block && are_same(self.values.as_slice(), values)
    }
}
