//! Plugins of a kit that are named are set aside before a search begins.
ghost use Rattle.std.specs.Prelude.{◌≡◌, ◌+◌, ◌≤◌, ◌++◌, not, filter, length, map, OnOk, OnErr, vec_len, vec_capacity};
ghost use Rattle.std.specs.List.{list_any};
ghost use Rattle.std.specs.Str.{bytes_eq};
ghost use Rattle.cip_solve.specs.Kits.{stock_of, IsFew, is_off, less_off};

use cip_plugin::{AnyPlugin, Kit, Spent, Tells};
use std::alloc::{AllocError, Global};

/// What is left of a plugin that nobody called.
trait Leaves<T>: Tells + Drop {
    ghost left: { Self → T };

    /// What is left of it.
    fn leave(self) -> T
        ensures { result ≡ left self };
}

impl Leaves<Spent> for AnyPlugin {
    ghost use Rattle.std.specs.Prelude.{None};

    ghost left = { λ plugin. record { id = None; plugin = plugin } };

    fn leave(self) -> Spent {
        Spent {
            id: None,
            plugin: self,
        }
    }
}

/// Whether a name is one of these.
fn is_one_of(name: &str, names: &[&str]) -> bool
    ensures { result ≡ list_any (λ other. bytes_eq name.now other.now) names.now }
{
    for other in names {
        if name == *other {
            return true;
        }
    }
    false
}

/// Moves the plugins that have one of these names behind those that are done with, and the others behind those that are
/// kept, in their order; there is room for all in both.
fn part<T: Drop, P: Leaves<T>>(
    names: &[&str],
    plugins: &mut Vec<P>,
    kept: &mut Vec<P>,
    spent: &mut Vec<T>,
)
    requires room { vec_len kept.old + length plugins.old.items ≤ vec_capacity kept.old }
    requires spare { vec_len spent.old + length plugins.old.items ≤ vec_capacity spent.old }
    ensures kept { kept.new.items ≡ kept.old.items
        ++ filter (λ plugin. not (is_off (map (λ name. name.now) names.now) (P.who plugin))) plugins.old.items }
    ensures spent { spent.new.items ≡ spent.old.items
        ++ map P.left (filter (λ plugin. is_off (map (λ name. name.now) names.now) (P.who plugin)) plugins.old.items) }
{
    for plugin in plugins.drain(..) {
        if is_one_of(plugin.name(), names) {
            spent.push_reserved(plugin.leave());
        } else {
            kept.push_reserved(plugin);
        }
    }
}

/// Moves the plugins of a kit's start that have one of these names behind those that are done with, in their order:
/// uncalled, and without numbers. `Err` comes where memory was refused: then the kit is as it was.
pub fn set_aside(alloc: Global, kit: &mut Kit, names: &[&str]) -> Result<(), AllocError>
    requires few { IsFew (stock_of ⟦<AnyPlugin as Tells>⟧.who kit.old) }
    ensures aside { OnOk result (stock_of ⟦<AnyPlugin as Tells>⟧.who kit.new
        ≡ less_off (map (λ name. name.now) names.now) (stock_of ⟦<AnyPlugin as Tells>⟧.who kit.old)) }
    ensures err { OnErr result (stock_of ⟦<AnyPlugin as Tells>⟧.who kit.new
        ≡ stock_of ⟦<AnyPlugin as Tells>⟧.who kit.old) }
{
    if names.is_empty() {
        return Ok(());
    }
    let count = kit.start.len();
    kit.spent.reserve(count)?;
    let mut kept = Vec::with_capacity(alloc, count)?;
    part(names, &mut kit.start, &mut kept, &mut kit.spent);
    kit.start = kept;
    Ok(())
}
