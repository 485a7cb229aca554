//! Lists of dictionaries that are done with.
ghost use Rattle.std.specs.Prelude.{◌≡◌, [], IfOk, replicate};

use crate::forms::Form;
use cip_bland::Stand;
use cip_frac::Frac;
use cip_lin::Sides;
use std::alloc::{AllocError, Global};

/// The most entries that all lists that are kept may have room for.
const MOST_SPARE: usize = 1 << 21;

/// Lists of dictionaries that are done with, to be filled anew, so that little is allocated for the next one. What
/// they held is of no account.
#[derive(Drop)]
pub struct Spare {
    pub(crate) numbers: Vec<Vec<Frac>>,
    pub(crate) entries: Vec<Vec<(u32, Frac)>>,
    pub(crate) wholes: Vec<Vec<(u32, i64)>>,
    /// How many entries those lists have room for, and at most `usize::MAX`.
    pub(crate) room: usize,
    pub(crate) forms: Vec<Vec<Form>>,
    pub(crate) stands: Vec<Vec<Option<Stand>>>,
    pub(crate) sides: Vec<Vec<Sides>>,
    pub(crate) marks: Vec<Vec<bool>>,
}

/// An empty list: one of these that are kept, or a new one.
pub(crate) fn emptied<T: Drop>(alloc: Global, kept: &mut Vec<Vec<T>>) -> Vec<T>
    ensures { result.items ≡ [] }
{
    let Some(mut list) = kept.pop() else {
        return Vec::new(alloc);
    };
    list.clear();
    list
}

/// Keeps a list; lets it go where no room was given for it.
pub(crate) fn keep<T: Drop>(kept: &mut Vec<Vec<T>>, list: Vec<T>) {
    let _kept = kept.push(list).is_ok();
}

/// So many times an item; `Err` where the memory was refused.
pub(crate) fn filled<T: Copy + Drop>(
    alloc: Global,
    kept: &mut Vec<Vec<T>>,
    n: usize,
    item: T,
) -> Result<Vec<T>, AllocError>
    ensures { IfOk result (λ list. list.items ≡ replicate n item) }
{
    let mut list = emptied(alloc, kept);
    list.resize(n, item)?;
    Ok(list)
}

/// An empty list, as `emptied` answers it, for which there is room then among the lists that have room for so many.
pub(crate) fn taken<T: Drop>(alloc: Global, kept: &mut Vec<Vec<T>>, room: &mut usize) -> Vec<T>
    ensures { result.items ≡ [] }
{
    let list = emptied(alloc, kept);
    *room = room.saturating_sub(list.capacity());
    list
}

/// Keeps a list that has room for some; lets it go where all that are kept would then have room for more than
/// `MOST_SPARE`: else the lists would come to have room for as many as the longest line that each of them ever was.
pub(crate) fn keep_counted<T: Drop>(kept: &mut Vec<Vec<T>>, room: &mut usize, list: Vec<T>) {
    let all = room.saturating_add(list.capacity());
    if list.capacity() > 0 && all <= MOST_SPARE && kept.push(list).is_ok() {
        *room = all;
    }
}

impl Spare {
    /// None so far.
    pub fn new(alloc: Global) -> Spare {
        Spare {
            numbers: Vec::new(alloc),
            entries: Vec::new(alloc),
            wholes: Vec::new(alloc),
            room: 0,
            forms: Vec::new(alloc),
            stands: Vec::new(alloc),
            sides: Vec::new(alloc),
            marks: Vec::new(alloc),
        }
    }

    /// Keeps a list of lines and the list of entries of each that has some.
    pub(crate) fn keep_forms(&mut self, mut list: Vec<Form>) {
        for _ in 0..list.len() {
            if let Some(form) = list.pop() {
                self.keep_form(form);
            }
        }
        keep(&mut self.forms, list);
    }

    /// Keeps the lists of a line.
    pub(crate) fn keep_form(&mut self, form: Form) {
        keep_counted(&mut self.entries, &mut self.room, form.entries);
        keep_counted(&mut self.wholes, &mut self.room, form.wholes);
    }
}
