//! Tests of the cell: what seats read, memory that is refused, and readers beside a writer in
//! threads.
use iol_cell::{CellFault, Handle, ImageSeat, ImageWriter, image_cell};
use iol_image::Image;
use refusing_alloc::{Refusal, RefusingAlloc};
use std::sync::Wait;
use std::test::Fail;
use std::thread::{Threads, join};

/// How many requests for memory a cell of two seats makes.
const AT_OPENING: u64 = 6;

/// Octets that differ.
const OCTETS: [u8; 32] = [
    0, 1, 2, 3, 4, 5, 6, 7, 8, 9, 10, 11, 12, 13, 14, 15, 16, 17, 18, 19, 20, 21, 22, 23, 24, 25,
    26, 27, 28, 29, 30, 31,
];

/// Whether each seat reads this.
fn all_read<R: Wait, A: Handle>(
    rt: &R,
    seats: &mut [ImageSeat<A>],
    wanted: Option<&Image>,
) -> bool {
    for seat in seats.iter_mut() {
        if seat.read(rt).as_ref() != wanted {
            return false;
        }
    }
    true
}

/// Images of each length, whose octets differ, and none.
#[test]
fn each_seat_reads_the_last_image(rt: HostRuntime) -> Result<(), Fail> {
    let (mut writer, mut seats) = image_cell(&rt, rt.alloc(), 2)?;
    for length in 1..33 {
        let image = Image::new(&OCTETS[..length])?;
        writer.publish(&rt, Some(&image));
        assert!(rt; all_read(&rt, &mut seats, Some(&image)));
    }
    writer.publish(&rt, None);
    assert!(rt; all_read(&rt, &mut seats, None));
    Ok(())
}

/// Whether there is no memory for a cell under this order.
fn is_refused<R: Wait, A: Handle>(
    rt: &R,
    alloc: A,
    refusing: &RefusingAlloc,
    refusal: Refusal,
) -> bool {
    refusing.order(refusal);
    match image_cell(rt, alloc, 2) {
        Ok(_) => false,
        Err(fault) => fault == CellFault::OutOfMemory && refusing.has_refused(),
    }
}

/// Whether there are two seats, which read nothing, where no more requests are granted than a
/// cell makes.
fn is_granted<R: Wait, A: Handle>(rt: &R, alloc: A, refusing: &RefusingAlloc) -> bool {
    refusing.order(Refusal::From(AT_OPENING));
    match image_cell(rt, alloc, 2) {
        Ok((_writer, mut seats)) => seats.len() == 2 && all_read(rt, &mut seats, None),
        Err(_) => false,
    }
}

/// No clause counts the requests: this test alone refuses a cell that asks again where it was
/// refused.
#[test]
fn each_refused_request_is_out_of_memory(rt: HostRuntime) {
    let refusing = RefusingAlloc::new(rt.alloc());
    for number in 0..AT_OPENING {
        for refusal in [Refusal::Only(number), Refusal::From(number)] {
            assert!(rt; is_refused(&rt, &refusing, &refusing, refusal));
        }
    }
    assert!(rt; is_granted(&rt, &refusing, &refusing));
}

const IMAGES: u16 = 10_000;

/// How many images in a row have the same octets, so that an octet tells older from newer.
const ALIKE: u16 = 40;

/// 32 equal octets, by the number of the image.
fn uniform_image(number: u16) -> Option<Image> {
    let octet = u8::try_from(number / ALIKE).ok()?;
    Image::new(&[octet; 32]).ok()
}

fn publish_all<R: Wait>(rt: &R, writer: &mut ImageWriter) {
    for number in 0..IMAGES {
        writer.publish(rt, uniform_image(number).as_ref());
    }
}

/// An octet of the last image, or none once one was mixed of two, or older than the one before.
fn read_all<R: Wait>(rt: &R, seat: &mut ImageSeat) -> Option<u8> {
    let mut last = 0;
    for _ in 0..1_000_000_000u32 {
        if last == 249 {
            break;
        }
        if let Some(image) = seat.read(rt) {
            let octet = image.octets()[0];
            if octet < last || Image::new(&[octet; 32]).ok() != Some(image) {
                return None;
            }
            last = octet;
        }
    }
    Some(last)
}

fn read_twice<R: Threads + Wait + Sync>(
    rt: &R,
    seat: &mut ImageSeat,
    other: &mut ImageSeat,
) -> (Option<u8>, Option<u8>) {
    join(rt, || read_all(rt, seat), || read_all(rt, other))
}

fn publish_and_read<R: Threads + Wait + Sync>(
    rt: &R,
    writer: &mut ImageWriter,
    seat: &mut ImageSeat,
    other: &mut ImageSeat,
) -> (Option<u8>, Option<u8>) {
    let (_, last) = join(
        rt,
        || publish_all(rt, writer),
        || read_twice(rt, seat, other),
    );
    last
}

/// No clause says that a call which may wait comes back: no proof refuses a read that waits for
/// ever where another thread publishes.
#[test]
fn no_read_mixes_two_images(rt: HostRuntime) -> Result<(), Fail> {
    let (mut writer, mut seats) = image_cell(&rt, rt.alloc(), 2)?;
    let mut seat = seats.pop().ok_or("a seat")?;
    let mut other = seats.pop().ok_or("another seat")?;
    let last = publish_and_read(&rt, &mut writer, &mut seat, &mut other);
    assert!(rt; last == (Some(249), Some(249)));
    Ok(())
}
