//! What becomes of a block, of a restore and of a fetch, by what the device answers.
use crate::sensor::{
    Cut, at, check, has, has_limits, is_set, limits, outcome, read, sensor, table_of_sensor,
};
use iol_book::Outcome;
use iol_isdu::{Answer, Cause, Place, Request};
use iol_params::{Manager, Table};
use iol_storage::{
    Download, DownloadPurpose, DownloadResult, DownloadStage, Flag, Keep, Objects, Refusal, Set,
    SetImage, StorageFault, Upload, UploadResult, UploadStage,
};
use std::alloc::Allocator;
use std::test::Fail;

/// More requests than any download or upload of these tests has.
const MANY: usize = 20;

/// The requests of a block of two limits: its start, two writes, and its end.
const REQUESTS: usize = 4;

/// The second limit is out of its range.
const OUT_OF_RANGE: Refusal = Refusal {
    place: Place { index: 65, sub: 0 },
    error: 0x80,
    additional: 0x30,
};

/// The two limits together break their order.
const INCONSISTENT: Refusal = Refusal {
    place: Place { index: 2, sub: 0 },
    error: 0x80,
    additional: 0x41,
};

/// Has a device carry out a download, but for a request that is cut off. How it ends, if it does.
fn downloaded<A: Allocator + Copy>(
    manager: &mut Manager<A>,
    objects: &Objects,
    purpose: DownloadPurpose,
    cut: Option<Cut>,
) -> Option<DownloadResult> {
    let mut download = Download::new(purpose);
    for index in 0..MANY {
        let Some(request) = download.asks(objects) else {
            break;
        };
        let outcome = outcome(manager, &request, index, cut);
        download.hear(objects, &outcome);
    }
    match download.stage {
        DownloadStage::Over(result) => Some(result),
        _ => None,
    }
}

/// Has a device carry out an upload.
fn uploaded<A: Allocator + Copy>(
    manager: &mut Manager<A>,
    objects: &mut Objects,
    checksum: [u8; 4],
) -> UploadStage {
    let mut upload = Upload::new(checksum);
    for _ in 0..MANY {
        let Some(request) = upload.asks(objects) else {
            break;
        };
        let answer = manager.carry(&request);
        upload.hear(objects, &Outcome::Done(answer));
    }
    upload.stage
}

/// The checksum of a device.
fn checksum<A: Allocator + Copy>(manager: &mut Manager<A>) -> [u8; 4] {
    match manager.carry(&Request::read(Place { index: 3, sub: 4 })) {
        Answer::Read(octets) => match octets.as_slice() {
            [first, second, third, last] => [*first, *second, *third, *last],
            _ => [0; 4],
        },
        _ => [0; 4],
    }
}

/// How a block of these limits ends at a device, if it does.
fn block_ended<A: Allocator + Copy>(
    manager: &mut Manager<A>,
    low: u8,
    high: u8,
    keep: Keep,
    cut: Option<Cut>,
) -> Option<DownloadResult> {
    match limits(low, high) {
        Ok(writes) => downloaded(manager, &writes, DownloadPurpose::Block(keep), cut),
        Err(_) => None,
    }
}

/// Whether a device applies a block of these limits.
fn applies<A: Allocator + Copy>(manager: &mut Manager<A>, low: u8, high: u8, keep: Keep) -> bool {
    block_ended(manager, low, high, keep, None) == Some(DownloadResult::Applied)
        && has_limits(manager, low, high)
}

/// Whether a device refuses a block of these limits, and has those that it left the factory with.
fn refuses<A: Allocator + Copy>(
    manager: &mut Manager<A>,
    low: u8,
    high: u8,
    refusal: Refusal,
) -> bool {
    block_ended(manager, low, high, Keep::No, None) == Some(DownloadResult::Refused(refusal))
        && has_limits(manager, 10, 90)
}

#[test]
fn a_block_is_applied_whole(rt: HostRuntime) -> Result<(), Fail> {
    let table = table_of_sensor()?;
    let mut manager = sensor(rt.alloc(), &table)?;
    check(&rt, applies(&mut manager, 95, 99, Keep::No));
    check(&rt, !manager.flag());
    check(&rt, applies(&mut manager, 20, 30, Keep::Yes));
    check(&rt, manager.flag());
    Ok(())
}

#[test]
fn a_block_that_is_refused_changes_nothing(rt: HostRuntime) -> Result<(), Fail> {
    let table = table_of_sensor()?;
    let mut manager = sensor(rt.alloc(), &table)?;
    check(&rt, refuses(&mut manager, 95, 101, OUT_OF_RANGE));
    // It was broken off, so that a block can begin at once.
    check(&rt, refuses(&mut manager, 95, 94, INCONSISTENT));
    Ok(())
}

/// What is known of a block behind a request that was cut off: of its end it isn't known whether it
/// was carried out.
fn known_of(cut: Cut) -> DownloadResult {
    if cut.at == REQUESTS - 1 {
        DownloadResult::Unknown(cut.cause)
    } else {
        DownloadResult::NotApplied
    }
}

/// Whether a block that is cut off ends so at a new device, which doesn't apply it.
fn is_cut_off<A: Allocator + Copy>(alloc: A, table: &Table, cut: Cut) -> bool {
    let Ok(mut manager) = sensor(alloc, table) else {
        return false;
    };
    block_ended(&mut manager, 95, 99, Keep::No, Some(cut)) == Some(known_of(cut))
        && has_limits(&manager, 10, 90)
}

/// The same, whichever request is cut off.
fn are_cut_off<A: Allocator + Copy>(alloc: A, table: &Table, cause: Cause) -> bool {
    for at in 0..REQUESTS {
        if !is_cut_off(alloc, table, Cut { at, cause }) {
            return false;
        }
    }
    true
}

#[test]
fn a_block_that_is_cut_off_is_known_not_to_be_applied(rt: HostRuntime) -> Result<(), Fail> {
    let table = table_of_sensor()?;
    check(&rt, are_cut_off(rt.alloc(), &table, Cause::LinkLost));
    check(&rt, are_cut_off(rt.alloc(), &table, Cause::Restarted));
    check(&rt, are_cut_off(rt.alloc(), &table, Cause::BusyTooLong));
    check(&rt, are_cut_off(rt.alloc(), &table, Cause::Cancelled));
    Ok(())
}

#[test]
fn a_device_without_isdu_gets_no_block(rt: HostRuntime) -> Result<(), Fail> {
    let objects = limits(95, 99)?;
    let mut download = Download::new(DownloadPurpose::Block(Keep::No));
    download.hear(&objects, &Outcome::NoIsdu);
    check(
        &rt,
        download.stage == DownloadStage::Over(DownloadResult::NoIsdu),
    );
    check(&rt, download.asks(&objects).is_none());
    Ok(())
}

/// How a restore ends at a device, if it does.
fn restored<A: Allocator + Copy>(
    manager: &mut Manager<A>,
    set: &Objects,
    flag: Flag,
) -> Option<DownloadResult> {
    downloaded(manager, set, DownloadPurpose::Restore(flag), None)
}

/// A user changes a device.
fn is_changed<A: Allocator + Copy>(manager: &mut Manager<A>) -> bool {
    is_set(manager, 65, 50) && manager.set(at(24), b"pump 7").is_ok()
}

/// The whole set of a device is fetched, with all that the sensor has.
fn fetches<A: Allocator + Copy>(
    manager: &mut Manager<A>,
    set: &mut Objects,
    checksum: [u8; 4],
) -> bool {
    uploaded(manager, set, checksum) == UploadStage::Over(UploadResult::Whole) && set.len() == 4
}

/// A new device takes the set over, and has its checksum then.
fn takes<A: Allocator + Copy>(alloc: A, table: &Table, set: &Objects, expected: [u8; 4]) -> bool {
    let Ok(mut new) = sensor(alloc, table) else {
        return false;
    };
    restored(&mut new, set, Flag::Counts) == Some(DownloadResult::Applied)
        && has(&new, 65, &[50])
        && has(&new, 24, b"pump 7")
        && checksum(&mut new) == expected
}

/// The set of a device that a user changed moves to a new one.
fn moves<A: Allocator + Copy>(old: &mut Manager<A>, alloc: A, table: &Table) -> bool {
    let expected = checksum(old);
    let mut set = Objects::new();
    fetches(old, &mut set, expected) && takes(alloc, table, &set, expected)
}

#[test]
fn a_set_moves_to_another_device(rt: HostRuntime) -> Result<(), Fail> {
    let table = table_of_sensor()?;
    let mut old = sensor(rt.alloc(), &table)?;
    check(&rt, is_changed(&mut old));
    check(&rt, moves(&mut old, rt.alloc(), &table));
    Ok(())
}

/// Whether a restore of these limits ends so.
fn restore_ends<A: Allocator + Copy>(
    manager: &mut Manager<A>,
    flag: Flag,
    wanted: DownloadResult,
) -> bool {
    match limits(20, 30) {
        Ok(set) => restored(manager, &set, flag) == Some(wanted),
        Err(_) => false,
    }
}

#[test]
fn a_flag_that_counts_ends_a_restore(rt: HostRuntime) -> Result<(), Fail> {
    let table = table_of_sensor()?;
    let mut manager = sensor(rt.alloc(), &table)?;
    check(&rt, is_set(&mut manager, 65, 50));
    check(
        &rt,
        restore_ends(&mut manager, Flag::Counts, DownloadResult::FlagSet),
    );
    check(&rt, has_limits(&manager, 10, 50));
    check(
        &rt,
        restore_ends(&mut manager, Flag::Ignored, DownloadResult::Applied),
    );
    check(&rt, has_limits(&manager, 20, 30));
    Ok(())
}

/// Whether the values of a device are no set beside the checksum that it had before.
fn is_no_set<A: Allocator + Copy>(manager: &mut Manager<A>, before: [u8; 4]) -> bool {
    let mut set = Objects::new();
    uploaded(manager, &mut set, before) == UploadStage::Over(UploadResult::Changed)
}

#[test]
fn a_device_that_changed_meanwhile_is_no_set(rt: HostRuntime) -> Result<(), Fail> {
    let table = table_of_sensor()?;
    let mut manager = sensor(rt.alloc(), &table)?;
    let before = checksum(&mut manager);
    check(&rt, is_set(&mut manager, 65, 50));
    check(&rt, is_no_set(&mut manager, before));
    Ok(())
}

/// Whether an upload ends where a device answers the read of the list with these octets.
fn is_no_list(list: &[u8]) -> bool {
    let mut set = Objects::new();
    let mut upload = Upload::new([0; 4]);
    upload.hear(&mut set, &Outcome::Done(Answer::Written));
    upload.hear(&mut set, &read(list));
    upload.stage == UploadStage::Breaking(UploadResult::BadList)
}

#[test]
fn an_upload_takes_only_whole_lists(rt: HostRuntime) {
    check(&rt, is_no_list(&[]));
    check(&rt, is_no_list(&[0]));
    check(&rt, is_no_list(&[0, 64, 0, 0]));
    check(&rt, is_no_list(&[0, 64, 0, 0, 1]));
    check(&rt, is_no_list(&[0, 64, 0, 1, 0]));
}

/// Whether a value has no room behind others.
fn is_too_large(objects: &mut Objects, index: u16, octets: &[u8]) -> bool {
    objects.push(at(index), octets) == Err(StorageFault::TooLarge)
}

/// Whether there is room for this value so many times.
fn are_pushed(objects: &mut Objects, count: u16, octets: &[u8]) -> bool {
    for index in 0..count {
        if objects.push(at(index), octets).is_err() {
            return false;
        }
    }
    true
}

#[test]
fn a_set_has_its_limits(rt: HostRuntime) {
    let mut objects = Objects::new();
    check(&rt, is_too_large(&mut objects, 1, &[7; 233]));
    check(&rt, are_pushed(&mut objects, 8, &[7; 232]));
    check(&rt, is_too_large(&mut objects, 8, &[7; 157]));
    check(&rt, objects.push(at(8), &[7; 156]).is_ok());
    check(&rt, is_too_large(&mut objects, 9, &[]));
    check(&rt, objects.len() == 9);
    objects.clear();
    check(&rt, are_pushed(&mut objects, 76, &[]));
    check(&rt, is_too_large(&mut objects, 76, &[]));
}

/// The octets of a set: a text, two limits and six octets.
const IMAGE: [u8; 38] = [
    0xFC, 0xA3, 0xC5, 0xA3, 0x12, 0x34, 0x00, 0x01, 0x07, 0, 0, // checksum, device
    0, 24, 0, 3, b't', b'a', b'g', 0, 64, 0, 1, 10, 0, 65, 0, 1, 50, // three values
    0, 80, 0, 6, 0, 0, 0, 0, 0, 0, // and the last one
];

#[test]
fn a_set_is_read_back(rt: HostRuntime) -> Result<(), Fail> {
    let set = Set::read(&IMAGE)?;
    check(&rt, set.checksum == [0xFC, 0xA3, 0xC5, 0xA3]);
    check(&rt, set.device == [0x12, 0x34, 0x00, 0x01, 0x07]);
    check(&rt, set.objects.len() == 4);
    let mut image = SetImage::new();
    image.push(7);
    set.write_into(&mut image);
    check(&rt, image.as_slice() == &IMAGE[..]);
    Ok(())
}

#[test]
fn octets_of_no_set_are_refused(rt: HostRuntime) {
    for size in 0..IMAGE.len() {
        // Where a value ends, the octets are a smaller set.
        let whole = matches!(size, 11 | 18 | 23 | 28);
        check(&rt, Set::read(&IMAGE[..size]).is_ok() == whole);
    }
    let mut image = IMAGE;
    image[9] = 1;
    check(&rt, Set::read(&image).is_err());
}
