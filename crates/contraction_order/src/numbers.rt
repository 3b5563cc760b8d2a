//! Lists of numbers that are read and written at any place.

/// The number at a place, and 0 where there is none.
#[inline(always)]
pub(crate) fn at(numbers: &[u32], place: u32) -> u32 {
    let place = place as usize;
    if place < numbers.len() {
        numbers[place]
    } else {
        0
    }
}

/// Writes a number at a place, if there is one.
#[inline(always)]
pub(crate) fn put(numbers: &mut [u32], place: u32, number: u32) {
    let place = place as usize;
    if place < numbers.len() {
        numbers[place] = number;
    }
}
