//! Places for connections, each of which is empty or has one. No more of them are looked at than were taken at one time.

/// A place that is empty, of so many at most.
pub(crate) fn free_place<T: Drop>(places: &mut Vec<Option<T>>, most: usize) -> Option<usize> {
    let free = places.iter().position(|place| place.is_none());
    if free.is_some() {
        return free;
    }
    let next = places.len();
    if next >= most || places.push(None).is_err() {
        return None;
    }
    Some(next)
}

/// Takes the empty places at the end away.
pub(crate) fn trim<T: Drop>(places: &mut Vec<Option<T>>) {
    for _ in 0..places.len() {
        match places.last() {
            Some(None) => {}
            _ => return,
        }
        places.pop();
    }
}

/// What stands at a place, which is empty then.
pub(crate) fn take_at<T: Drop>(places: &mut Vec<Option<T>>, place: usize) -> Option<T> {
    match places.get_mut(place) {
        Some(item) => item.take(),
        None => None,
    }
}

/// Puts something at a place.
pub(crate) fn put_at<T: Drop>(places: &mut Vec<Option<T>>, place: usize, item: T) {
    if let Some(old) = places.get_mut(place) {
        *old = Some(item);
    }
}
