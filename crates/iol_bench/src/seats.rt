//! Images that are read without a port's lock.
use crate::check_word::CheckWord;
use crate::fault::BenchFault;
use iol_cell::{ImageSeat, image_cell};
use iol_image::Image;
use std::alloc::Global;
use std::sync::Wait;

/// A published image of 32 octets is read at a seat.
#[inline(never)]
pub(crate) fn seat<R: Wait>(rt: &R, alloc: Global, count: u64) -> Result<CheckWord, BenchFault> {
    let (mut writer, mut seats) = image_cell(rt, alloc, 1)?;
    let Some(mut seat) = seats.pop() else {
        return Err(BenchFault::Unexpected);
    };
    let image = Image::new(&[0x5A; 32])?;
    writer.publish(rt, Some(&image));
    read_all(rt, &mut seat, count)
}

/// What is read at a seat so many times.
fn read_all<R: Wait>(rt: &R, seat: &mut ImageSeat, count: u64) -> Result<CheckWord, BenchFault> {
    let mut word = CheckWord::new();
    for _ in 0..count {
        let Some(image) = seat.read(rt) else {
            return Err(BenchFault::Unexpected);
        };
        word.add(image.octets().len() as u64);
    }
    Ok(word)
}
