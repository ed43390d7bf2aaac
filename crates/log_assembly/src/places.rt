//! Where the answers of an object were found, so that those of the next are looked for there.
use std::alloc::{AllocError, Global};

/// Places in the answers of an event annotation: one for each key, one for the pairs with cases, and one
/// for the cases. The answers of an object stand at or a little behind those of the object before it.
/// Any places serve: at a wrong one the answers are searched for.
#[derive(Debug, Drop)]
pub(crate) struct Places {
    pub keys: Vec<usize>,
    pub pairs: usize,
    pub cases: usize,
}

impl Places {
    pub fn new(alloc: Global, keys: usize) -> Result<Places, AllocError> {
        Ok(Places {
            keys: vec![in alloc; 0; keys]?,
            pairs: 0,
            cases: 0,
        })
    }
}

/// The place with this number, or the front.
pub(crate) fn place_at(places: &[usize], number: usize) -> usize {
    match places.get(number) {
        Some(place) => *place,
        None => 0,
    }
}

/// Keeps a place under its number, if there is one.
pub(crate) fn keep_place(places: &mut [usize], number: usize, place: usize) {
    if number < places.len() {
        places[number] = place;
    }
}
