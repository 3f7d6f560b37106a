//! The objects that lines have named.

use std::alloc::{AllocError, Global};

/// How many bytes a name may have.
pub const NAME_LEN: usize = 16;

/// How many objects have a place before there must be more memory.
const ROOM: usize = 256;

/// An object under its name.
#[derive(Drop)]
struct Slot<T: Drop> {
    name: [u8; NAME_LEN],
    object: T,
}

/// Objects under their names. A call takes its object out and puts it back.
#[derive(Drop)]
pub struct Slots<T: Drop> {
    slots: Vec<Slot<T>>,
}

/// A name as it is kept: what it lacks is filled with spaces.
fn kept_name(name: &[u8]) -> Option<[u8; NAME_LEN]> {
    let mut kept = [b' '; NAME_LEN];
    if name.is_empty() || name.len() > NAME_LEN {
        return None;
    }
    for (place, byte) in kept.iter_mut().zip(name) {
        *place = *byte;
    }
    Some(kept)
}

impl<T: Drop> Slots<T> {
    pub fn new(alloc: Global) -> Result<Slots<T>, AllocError> {
        let slots = match Vec::with_capacity(alloc, ROOM) {
            Ok(slots) => slots,
            Err(_) => Vec::with_capacity(alloc, ROOM)?,
        };
        Ok(Slots { slots })
    }

    fn place(&self, name: &[u8]) -> Option<usize> {
        let name = kept_name(name)?;
        self.slots.iter().position(|slot| slot.name == name)
    }

    pub fn get(&self, name: &[u8]) -> Option<&T> {
        let place = self.place(name)?;
        match self.slots.get(place) {
            Some(slot) => Some(&slot.object),
            None => None,
        }
    }

    /// Takes the object out.
    pub fn take(&mut self, name: &[u8]) -> Option<T> {
        let place = self.place(name)?;
        if place < self.slots.len() {
            Some(self.slots.swap_remove(place).object)
        } else {
            None
        }
    }

    /// Puts an object under a name, in the place of one that has it. An object under no name that can be kept goes.
    pub fn put(&mut self, name: &[u8], object: T) -> Result<(), AllocError> {
        let _ = self.take(name);
        if let Some(name) = kept_name(name) {
            self.slots.push(Slot { name, object })?;
        }
        Ok(())
    }

    pub fn clear(&mut self) {
        self.slots.clear();
    }
}
