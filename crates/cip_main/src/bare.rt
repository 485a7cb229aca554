//! A kit without plugins.
ghost use Rattle.std.specs.Prelude.{◌≡◌, []};
ghost use Rattle.cip_main.specs.Kits.{stock_of, IsFew};

use cip_plugin::{AnyPlugin, Kit, Tells};
use std::alloc::Global;

/// A kit that has no plugin, with which a search goes by itself.
pub fn no_plugins(alloc: Global) -> Kit
    ensures none { stock_of ⟦<AnyPlugin as Tells>⟧.who result ≡ record { start = []; shelf = []; spent = [] } }
    ensures few { IsFew (stock_of ⟦<AnyPlugin as Tells>⟧.who result) }
{
    Kit {
        start: Vec::new(alloc),
        shelf: Vec::new(alloc),
        spent: Vec::new(alloc),
    }
}
