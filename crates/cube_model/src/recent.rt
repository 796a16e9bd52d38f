// The numbers under which names were found last.

use crate::NoMemory;
use std::alloc::Global;

/// For each slot of names the number of the one that was found last, or none. What stands there
/// is only a guess, which spares the look-up where it is right.
#[derive(Drop)]
pub struct Recent {
    // A number and 1 more, or 0.
    numbers: Vec<u16>,
    mask: usize,
}

impl Recent {
    /// No slot: nothing is noted.
    pub fn none(alloc: Global) -> Self {
        Recent {
            numbers: Vec::new(alloc),
            mask: 0,
        }
    }

    /// Makes so many slots, a power of two, with no number in any of them, where there are none.
    pub fn make_slots(&mut self, alloc: Global, slots: usize) -> Result<(), NoMemory> {
        if self.numbers.is_empty() {
            self.numbers = vec![in alloc; 0u16; slots]?;
            self.mask = slots.saturating_sub(1);
        }
        Ok(())
    }

    /// The slot of a name. Names of different lists are told apart by a number.
    pub fn slot(&self, list: usize, name: &[u8]) -> usize {
        let mut sum = list;
        'bytes: for byte in name {
            sum = sum.wrapping_mul(31).wrapping_add(usize::from(*byte));
        }
        sum & self.mask
    }

    /// The number in a slot.
    pub fn guess(&self, slot: usize) -> Option<usize> {
        match self.numbers.get(slot) {
            Some(above) if *above > 0 => Some(usize::from(*above - 1)),
            _ => None,
        }
    }

    /// Puts a number in a slot, where it is small enough.
    pub fn note(&mut self, slot: usize, number: usize) {
        if slot < self.numbers.len() && number < usize::from(u16::MAX) {
            self.numbers[slot] = number as u16 + 1;
        }
    }
}
