//! Where numbers stand by a hash of what they are the numbers of. Whoever finds one there compares the bytes too.

/// In how many slots a number is looked for, so that those of one hash cost no more than others.
pub const PROBES: usize = 16;

/// The slot in which a hash is looked for at a probe, where there are so many. That many is a power of two.
pub fn slot_of(hash: u32, probe: usize, slots: usize) -> usize {
    (hash as usize).wrapping_add(probe) & slots.wrapping_sub(1)
}

/// Puts a number, from 1, into the first free slot of its hash: free is one with 0. Where none is free, an older number is forgotten.
pub fn put(slots: &mut [u32], hash: u32, number: u32) {
    for probe in 0..PROBES {
        if let Some(slot) = slots.get_mut(slot_of(hash, probe, slots.len()))
            && (*slot == 0 || probe + 1 == PROBES)
        {
            *slot = number;
            return;
        }
    }
}
