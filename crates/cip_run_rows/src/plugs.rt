//! The lines of a row that say what its kit holds.
use crate::acts::Act;
use crate::fields::Fields;
use cip_events::{EventKind, EventMask};
use cip_plugin::{Kind, Wish};

/// The kinds of events by their names.
const EVENTS: [(&str, EventKind); 13] = [
    ("NodeFocused", EventKind::NodeFocused),
    ("NodeFeasible", EventKind::NodeFeasible),
    ("NodeInfeasible", EventKind::NodeInfeasible),
    ("NodeBranched", EventKind::NodeBranched),
    ("FirstLpSolved", EventKind::FirstLpSolved),
    ("LpSolved", EventKind::LpSolved),
    ("BestSolFound", EventKind::BestSolFound),
    ("PoorSolFound", EventKind::PoorSolFound),
    ("LbTightened", EventKind::LbTightened),
    ("UbTightened", EventKind::UbTightened),
    ("RowAdded", EventKind::RowAdded),
    ("PluginIncluded", EventKind::PluginIncluded),
    ("PluginFreed", EventKind::PluginFreed),
];

/// What a plugin does.
#[derive(Clone, Copy)]
pub struct Doing {
    /// What it does as it is asked.
    pub act: Act,
    /// Where its random numbers begin.
    pub seed: u64,
    /// Which events it hears.
    pub mask: EventMask,
    /// What it wishes at each of them.
    pub wishes: [Option<Wish>; 10],
}

/// A plugin as a line says it.
#[derive(Clone, Copy)]
pub struct Plug<'a> {
    pub kind: Kind,
    pub name: &'a str,
    pub rank: i32,
    /// How often it does what it does.
    pub times: u32,
    pub doing: Doing,
}

/// The kind of plugins of a word.
fn kind_of(word: &str) -> Option<Kind> {
    match word {
        "separator" => Some(Kind::Separator),
        "propagator" => Some(Kind::Propagator),
        "heuristic" => Some(Kind::Heuristic),
        "rule" => Some(Kind::BranchRule),
        "handler" => Some(Kind::ConsHandler),
        "watcher" => Some(Kind::EventHandler),
        _ => None,
    }
}

/// The events of a name, or all of them by the word `any`.
fn mask_of(word: &str) -> EventMask {
    let mut mask = EventMask::empty();
    for event in &EVENTS {
        if word == "any" || word == event.0 {
            mask = mask.with(event.1);
        }
    }
    mask
}

/// The wish that a word begins; `None` where it is none.
fn wish_by(word: &str, fields: &mut Fields<'_>) -> Option<Wish> {
    let id = fields.number()?;
    match word {
        "include" => Some(Wish::Include(id)),
        "disable" => Some(Wish::Disable(id)),
        "enable" => Some(Wish::Enable(id)),
        "free" => Some(Wish::Free(id)),
        "rank" => Some(Wish::Priority(id, fields.rank()?)),
        _ => None,
    }
}

/// The wishes of the fields that are left; `None` where these say none, or too many.
fn wishes_in(fields: &mut Fields<'_>) -> Option<[Option<Wish>; 10]> {
    let mut wishes = [None; 10];
    for at in 0..wishes.len() {
        let word = fields.word();
        if word.is_empty() {
            return Some(wishes);
        }
        wishes[at] = Some(wish_by(word, fields)?);
    }
    if fields.word().is_empty() {
        Some(wishes)
    } else {
        None
    }
}

/// How often something is done: always, by the word `always`.
fn times_in(fields: &mut Fields<'_>) -> Option<u32> {
    match fields.word() {
        "always" => Some(u32::MAX),
        number => number.parse::<u32>().ok(),
    }
}

/// What the fields say that a plugin does: wishes at events of a name, or an act, by which it hears all events.
fn doing_in(fields: &mut Fields<'_>) -> Option<Doing> {
    let word = fields.word();
    if word == "on" {
        return Some(Doing {
            act: Act::Nothing,
            seed: 0,
            mask: mask_of(fields.word()),
            wishes: wishes_in(fields)?,
        });
    }
    let act = Act::read(word, fields)?;
    let seed = if word == "random" {
        fields.number()?
    } else {
        0
    };
    Some(Doing {
        act,
        seed: u64::from(seed),
        mask: mask_of("any"),
        wishes: [None; 10],
    })
}

impl<'a> Plug<'a> {
    /// The plugin of a line, which has its kind, its name, its priority, how often it does something, and what that is;
    /// `None` where the line says none.
    pub fn read(line: &'a str) -> Option<Plug<'a>> {
        let mut fields = Fields::new(line);
        Some(Plug {
            kind: kind_of(fields.word())?,
            name: fields.word(),
            rank: fields.rank()?,
            times: times_in(&mut fields)?,
            doing: doing_in(&mut fields)?,
        })
    }
}

/// Whether a line says a plugin.
pub fn is_plug(line: &str) -> bool {
    Plug::read(line).is_some()
}
