//! Elements of lists, by their places.

/// The element at a place; another one past the end.
#[inline(always)]
pub(crate) fn item_at<T: Copy>(list: &[T], place: usize, otherwise: T) -> T {
    match list.get(place) {
        Some(item) => *item,
        None => otherwise,
    }
}

/// Sets the element at a place, if there is one.
#[inline(always)]
pub(crate) fn put_at<T: Copy>(list: &mut [T], place: usize, item: T) {
    if let Some(own) = list.get_mut(place) {
        *own = item;
    }
}
