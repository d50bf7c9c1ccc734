//! What becomes of an attempt of a check of Data Storage, by what the device answers.
use crate::sensor::{
    Cut, at, check, has, is_set, outcome, read, sensor, table_of_first, table_of_other,
    table_of_sensor,
};
use iol_book::Outcome;
use iol_isdu::{Answer, Cause, Place, Request, encode_request};
use iol_params::{Manager, Table};
use iol_storage::{
    AttemptPurpose, AttemptResult, Objects, Refusal, SerialNumber, Set, SetImage, StorageAttempt,
    StorageFault, StorageMode,
};
use std::alloc::Allocator;
use std::test::Fail;

/// More requests than any attempt of these tests has.
const MANY: usize = 50;

/// The requests of a fetch, of which the last but one says that the upload ends, and those of a
/// restore.
const FETCH_REQUESTS: usize = 12;

const RESTORE_REQUESTS: usize = 10;

/// The octets of a set: a text, two limits, of which the second was changed to 50, and six octets.
const IMAGE: [u8; 38] = [
    0xFC, 0xA3, 0xC5, 0xA3, 0x12, 0x34, 0x00, 0x01, 0x07, 0, 0, // checksum, device
    0, 24, 0, 3, b't', b'a', b'g', 0, 64, 0, 1, 10, 0, 65, 0, 1, 50, // three values
    0, 80, 0, 6, 0, 0, 0, 0, 0, 0, // and the last one
];

/// A request on the line, and what the device answers: the octets that are read.
type Exchange<'a> = (&'a [u8], &'a [u8]);

/// The looks at a device that a user changed.
const LOOKS: [Exchange; 3] = [
    (&[0xA4, 3, 2, 0xA5], &[0x80]),
    (&[0xA4, 3, 3, 0xA4], &[0, 0, 0, 0x24]),
    (&[0xA4, 3, 4, 0xA3], &[0xFC, 0xA3, 0xC5, 0xA3]),
];
/// The upload behind them.
const UPLOAD: [Exchange; 7] = [
    (&[0x25, 3, 1, 1, 0x26], &[]),
    (
        &[0xA4, 3, 5, 0xA2],
        &[0, 24, 0, 0, 64, 0, 0, 65, 0, 0, 80, 0, 0, 0],
    ),
    (&[0x93, 24, 0x8B], b"tag"),
    (&[0x93, 64, 0xD3], &[10]),
    (&[0x93, 65, 0xD2], &[50]),
    (&[0x93, 80, 0xC3], &[0; 6]),
    (&[0xA4, 3, 4, 0xA3], &[0xFC, 0xA3, 0xC5, 0xA3]),
];
/// What follows once the set is saved.
const AFTER_SAVE: [Exchange; 2] = [
    (&[0x25, 3, 1, 2, 0x25], &[]),
    (&[0xA4, 3, 4, 0xA3], &[0xFC, 0xA3, 0xC5, 0xA3]),
];
/// The looks at a new unit, and the restore behind them.
const RESTORE: [Exchange; RESTORE_REQUESTS] = [
    (&[0xA4, 3, 2, 0xA5], &[0]),
    (&[0xA4, 3, 3, 0xA4], &[0, 0, 0, 0x24]),
    (&[0xA4, 3, 4, 0xA3], &[0x16, 0xB4, 0xB2, 0xDE]),
    (&[0x25, 3, 1, 3, 0x24], &[]),
    (&[0xA4, 3, 2, 0xA5], &[4]),
    (&[0x16, 24, b't', b'a', b'g', 0x7C], &[]),
    (&[0x14, 64, 10, 0x5E], &[]),
    (&[0x14, 65, 50, 0x67], &[]),
    (&[0x19, 80, 0, 0, 0, 0, 0, 0, 0x49], &[]),
    (&[0x25, 3, 1, 4, 0x23], &[]),
];

/// Whether an answer is one to a request that was carried out, with these octets.
fn is_answer(answer: &Answer, octets: &[u8]) -> bool {
    match answer {
        Answer::Read(read) => read.as_slice() == octets,
        Answer::Written => octets.is_empty(),
        Answer::Refused(_, _) => false,
    }
}

/// Whether a request goes out as these octets.
fn is_sent(request: &Request, octets: &[u8]) -> bool {
    encode_request(request).as_slice() == octets
}

/// Whether an attempt and a device exchange just this next.
fn exchange_one<A: Allocator + Copy>(
    attempt: &mut StorageAttempt,
    manager: &mut Manager<A>,
    backup: Option<&Set>,
    draft: &mut Objects,
    (sent, answered): Exchange,
) -> bool {
    let Some(request) = attempt.asks(backup, draft) else {
        return false;
    };
    let answer = manager.carry(&request);
    let is_wanted = is_sent(&request, sent) && is_answer(&answer, answered);
    attempt.hear(backup, draft, &Outcome::Done(answer));
    is_wanted
}

/// Whether an attempt and a device exchange just this next.
fn exchange<A: Allocator + Copy>(
    attempt: &mut StorageAttempt,
    manager: &mut Manager<A>,
    backup: Option<&Set>,
    draft: &mut Objects,
    expected: &[Exchange],
) -> bool {
    for one in expected {
        if !exchange_one(attempt, manager, backup, draft, *one) {
            return false;
        }
    }
    true
}

/// The next request of an attempt. A set that waits is saved at once.
fn next(attempt: &mut StorageAttempt, backup: Option<&Set>, draft: &Objects) -> Option<Request> {
    if attempt.wants_saved() {
        attempt.saved();
    }
    attempt.asks(backup, draft)
}

/// How an attempt ends at a device, but for a request that is cut off.
fn ended<A: Allocator + Copy>(
    attempt: &mut StorageAttempt,
    manager: &mut Manager<A>,
    backup: Option<&Set>,
    draft: &mut Objects,
    cut: Option<Cut>,
) -> Option<AttemptResult> {
    for index in 0..MANY {
        let Some(request) = next(attempt, backup, draft) else {
            break;
        };
        let outcome = outcome(manager, &request, index, cut);
        attempt.hear(backup, draft, &outcome);
    }
    attempt.result()
}

/// How a new attempt ends at a device.
fn checked<A: Allocator + Copy>(
    mode: StorageMode,
    manager: &mut Manager<A>,
    backup: Option<&Set>,
    cut: Option<Cut>,
) -> Option<AttemptResult> {
    let mut attempt = StorageAttempt::new(mode, AttemptPurpose::StartUp);
    ended(&mut attempt, manager, backup, &mut Objects::new(), cut)
}

/// Whether a new attempt ends so at a device.
fn ends<A: Allocator + Copy>(
    mode: StorageMode,
    manager: &mut Manager<A>,
    backup: Option<&Set>,
    wanted: AttemptResult,
) -> bool {
    checked(mode, manager, backup, None) == Some(wanted)
}

/// The set that is kept.
fn backup_set() -> Result<Set, StorageFault> {
    Set::read(&IMAGE)
}

/// A new attempt in this mode, as a session begins.
fn begun(mode: StorageMode) -> StorageAttempt {
    StorageAttempt::new(mode, AttemptPurpose::StartUp)
}

/// The set of a device that a user changed is fetched. Until it is saved nothing is asked, and the
/// flag stands.
fn fetches<A: Allocator + Copy>(
    attempt: &mut StorageAttempt,
    manager: &mut Manager<A>,
    draft: &mut Objects,
) -> bool {
    exchange(attempt, manager, None, draft, &LOOKS)
        && !attempt.wants_saved()
        && exchange(attempt, manager, None, draft, &UPLOAD)
        && attempt.wants_saved()
        && manager.flag()
        && attempt.asks(None, draft).is_none()
}

/// The device is told once it is saved, and nothing more is asked.
fn tells<A: Allocator + Copy>(
    attempt: &mut StorageAttempt,
    manager: &mut Manager<A>,
    draft: &mut Objects,
) -> bool {
    attempt.saved();
    exchange(attempt, manager, None, draft, &AFTER_SAVE)
        && attempt.result() == Some(AttemptResult::Fetched)
        && attempt.asks(None, draft).is_none()
        && !manager.flag()
}

/// Whether a set has these octets.
fn is_image(set: &Set, octets: &[u8]) -> bool {
    let mut image = SetImage::new();
    set.write_into(&mut image);
    image.as_slice() == octets
}

#[test]
fn a_change_is_fetched_and_the_device_is_told(rt: HostRuntime) -> Result<(), Fail> {
    let table = table_of_sensor()?;
    let mut manager = sensor(rt.alloc(), &table)?;
    let mut draft = Objects::new();
    let mut attempt = begun(StorageMode::Both);
    check(&rt, is_set(&mut manager, 65, 50));
    check(&rt, fetches(&mut attempt, &mut manager, &mut draft));
    check(&rt, tells(&mut attempt, &mut manager, &mut draft));
    let set = Set {
        checksum: attempt.upload.checksum,
        device: [0x12, 0x34, 0x00, 0x01, 0x07],
        unit: SerialNumber::new(),
        objects: draft,
    };
    check(&rt, is_image(&set, &IMAGE));
    Ok(())
}

/// A new unit gets the kept set.
fn restores<A: Allocator + Copy>(manager: &mut Manager<A>, set: &Set) -> bool {
    let mut draft = Objects::new();
    let mut attempt = begun(StorageMode::Both);
    exchange(&mut attempt, manager, Some(set), &mut draft, &RESTORE)
        && attempt.result() == Some(AttemptResult::Restored)
        && has(manager, 24, b"tag")
        && has(manager, 65, &[50])
}

/// A new unit gets it, and has its checksum then.
fn restores_once<A: Allocator + Copy>(alloc: A, table: &Table, set: &Set) -> bool {
    let Ok(mut manager) = sensor(alloc, table) else {
        return false;
    };
    restores(&mut manager, set)
        && ends(
            StorageMode::Both,
            &mut manager,
            Some(set),
            AttemptResult::Same,
        )
}

#[test]
fn a_set_is_restored_at_a_new_unit(rt: HostRuntime) -> Result<(), Fail> {
    let table = table_of_sensor()?;
    let set = backup_set()?;
    check(&rt, restores_once(rt.alloc(), &table, &set));
    Ok(())
}

/// Whether an attempt at a device that a user changed ends so in this mode.
fn ends_in<A: Allocator + Copy>(
    alloc: A,
    table: &Table,
    mode: StorageMode,
    backup: Option<&Set>,
    wanted: AttemptResult,
) -> bool {
    let Ok(mut manager) = sensor(alloc, table) else {
        return false;
    };
    is_set(&mut manager, 64, 11) && ends(mode, &mut manager, backup, wanted)
}

#[test]
fn a_mode_says_what_may_come(rt: HostRuntime) -> Result<(), Fail> {
    let table = table_of_sensor()?;
    let set = backup_set()?;
    for (mode, wanted) in [
        (StorageMode::Restore, AttemptResult::Empty),
        (StorageMode::Both, AttemptResult::Fetched),
        (StorageMode::Own, AttemptResult::Fetched),
    ] {
        check(&rt, ends_in(rt.alloc(), &table, mode, None, wanted));
    }
    for (mode, wanted) in [
        (StorageMode::Off, AttemptResult::Unchanged),
        (StorageMode::Restore, AttemptResult::Restored),
        (StorageMode::Both, AttemptResult::Fetched),
        (StorageMode::Own, AttemptResult::Restored),
    ] {
        check(&rt, ends_in(rt.alloc(), &table, mode, Some(&set), wanted));
    }
    Ok(())
}

/// Whether an attempt at a device that was served already ends so.
fn ends_in_service<A: Allocator + Copy>(
    manager: &mut Manager<A>,
    set: &Set,
    wanted: AttemptResult,
) -> bool {
    let mut draft = Objects::new();
    let mut attempt = StorageAttempt::new(StorageMode::Both, AttemptPurpose::InService);
    ended(&mut attempt, manager, Some(set), &mut draft, None) == Some(wanted)
}

/// A served device is not restored, but what a user changes there is fetched.
fn is_served<A: Allocator + Copy>(alloc: A, table: &Table, set: &Set) -> bool {
    let Ok(mut manager) = sensor(alloc, table) else {
        return false;
    };
    ends_in_service(&mut manager, set, AttemptResult::Unchanged)
        && is_set(&mut manager, 64, 11)
        && ends_in_service(&mut manager, set, AttemptResult::Fetched)
        && is_set(&mut manager, 64, 11)
}

#[test]
fn a_served_device_is_not_restored(rt: HostRuntime) -> Result<(), Fail> {
    let table = table_of_sensor()?;
    let set = backup_set()?;
    check(&rt, is_served(rt.alloc(), &table, &set));
    Ok(())
}

/// The set that is fetched of a new unit whose SerialNumber is "first", in mode Own.
fn fetched<A: Allocator + Copy>(manager: &mut Manager<A>) -> Option<Set> {
    let mut draft = Objects::new();
    let mut attempt = begun(StorageMode::Own);
    let end = ended(&mut attempt, manager, None, &mut draft, None);
    if end != Some(AttemptResult::Fetched) || attempt.unit.as_slice() != &b"first"[..] {
        return None;
    }
    Some(Set {
        checksum: attempt.upload.checksum,
        device: [0; 5],
        unit: attempt.unit,
        objects: draft,
    })
}

/// A change at another unit is undone in mode Own.
fn undoes<A: Allocator + Copy>(alloc: A, table: &Table, set: &Set) -> bool {
    let Ok(mut other) = sensor(alloc, table) else {
        return false;
    };
    is_set(&mut other, 65, 50)
        && ends(
            StorageMode::Own,
            &mut other,
            Some(set),
            AttemptResult::Restored,
        )
        && has(&other, 65, &[90])
}

/// A change at the set's own unit is fetched.
fn fetches_own<A: Allocator + Copy>(first: &mut Manager<A>, set: &Set) -> bool {
    is_set(first, 65, 50) && ends(StorageMode::Own, first, Some(set), AttemptResult::Fetched)
}

/// The set of a unit is fetched. Another unit's change is undone, and its own one is fetched.
fn tells_apart<A: Allocator + Copy>(first: &mut Manager<A>, alloc: A, other_table: &Table) -> bool {
    match fetched(first) {
        Some(set) => undoes(alloc, other_table, &set) && fetches_own(first, &set),
        None => false,
    }
}

#[test]
fn only_its_own_unit_replaces_a_set(rt: HostRuntime) -> Result<(), Fail> {
    let first_table = table_of_first()?;
    let other_table = table_of_other()?;
    let mut first = sensor(rt.alloc(), &first_table)?;
    check(&rt, tells_apart(&mut first, rt.alloc(), &other_table));
    Ok(())
}

#[test]
fn a_locked_device_is_left_alone(rt: HostRuntime) -> Result<(), Fail> {
    let table = table_of_sensor()?;
    let mut manager = sensor(rt.alloc(), &table)?;
    let answer = manager.carry(&Request::write(at(12), &[0, 2])?);
    check(&rt, answer == Answer::Written);
    check(
        &rt,
        ends(StorageMode::Both, &mut manager, None, AttemptResult::Locked),
    );
    Ok(())
}

/// How an attempt ends, if it does, behind this outcome of its first look.
fn looked(outcome: &Outcome) -> Option<AttemptResult> {
    let mut attempt = begun(StorageMode::Both);
    attempt.hear(None, &mut Objects::new(), outcome);
    attempt.result()
}

/// Whether an attempt ends so where its first look is refused with this AdditionalCode.
fn ends_refused(additional: u8, wanted: AttemptResult) -> bool {
    looked(&Outcome::Done(Answer::Refused(0x80, additional))) == Some(wanted)
}

/// How an attempt ends, if it does, where a device says that its set has this size.
fn sized(size: &[u8]) -> Option<AttemptResult> {
    let mut attempt = begun(StorageMode::Both);
    attempt.hear(None, &mut Objects::new(), &read(&[0]));
    attempt.hear(None, &mut Objects::new(), &read(size));
    attempt.result()
}

#[test]
fn the_looks_end_an_attempt(rt: HostRuntime) {
    let unknown = Refusal {
        place: Place { index: 3, sub: 2 },
        error: 0x80,
        additional: 0x23,
    };
    check(&rt, ends_refused(0x11, AttemptResult::Unsupported));
    check(&rt, ends_refused(0x12, AttemptResult::Unsupported));
    check(&rt, ends_refused(0x20, AttemptResult::Transient));
    check(&rt, ends_refused(0x22, AttemptResult::Transient));
    check(&rt, ends_refused(0x23, AttemptResult::Refused(unknown)));
    check(&rt, ends_refused(0x36, AttemptResult::Transient));
    check(
        &rt,
        looked(&Outcome::NoIsdu) == Some(AttemptResult::Unsupported),
    );
    check(
        &rt,
        looked(&Outcome::Withdrawn) == Some(AttemptResult::Transient),
    );
    check(&rt, looked(&read(&[0x86])) == Some(AttemptResult::Locked));
    check(&rt, looked(&read(&[0x80])).is_none());
    check(
        &rt,
        looked(&read(&[0, 0])) == Some(AttemptResult::Transient),
    );
    check(&rt, sized(&[0, 0, 8, 0]).is_none());
    check(&rt, sized(&[0, 0, 8, 1]) == Some(AttemptResult::TooLarge));
    check(&rt, sized(&[1, 0, 0, 0]) == Some(AttemptResult::TooLarge));
}

/// Whether an attempt ends so, with this second limit at the device, if a user changes that limit
/// behind the looks. Nothing goes on at the device: a user may change it again.
fn ends_with<A: Allocator + Copy>(
    manager: &mut Manager<A>,
    mode: StorageMode,
    set: &Set,
    wanted: AttemptResult,
    limit: u8,
) -> bool {
    let mut draft = Objects::new();
    let mut attempt = begun(mode);
    exchange(&mut attempt, manager, Some(set), &mut draft, &RESTORE[..3])
        && is_set(manager, 65, 60)
        && ended(&mut attempt, manager, Some(set), &mut draft, None) == Some(wanted)
        && has(manager, 65, &[limit])
        && is_set(manager, 65, 70)
}

/// The same, at a new unit.
fn ends_new<A: Allocator + Copy>(
    alloc: A,
    table: &Table,
    mode: StorageMode,
    wanted: AttemptResult,
    limit: u8,
) -> bool {
    let (Ok(mut manager), Ok(set)) = (sensor(alloc, table), backup_set()) else {
        return false;
    };
    ends_with(&mut manager, mode, &set, wanted, limit)
}

#[test]
fn a_change_behind_the_looks_is_not_undone(rt: HostRuntime) -> Result<(), Fail> {
    let table = table_of_sensor()?;
    for (mode, wanted, limit) in [
        (StorageMode::Both, AttemptResult::Transient, 60),
        (StorageMode::Restore, AttemptResult::Restored, 50),
    ] {
        check(&rt, ends_new(rt.alloc(), &table, mode, wanted, limit));
    }
    Ok(())
}

/// What a device has behind a request that was cut off: with the link it loses what was going on.
fn cut_off<A: Allocator + Copy>(manager: &mut Manager<A>, cause: Cause) {
    if cause == Cause::LinkLost {
        manager.over();
    }
}

/// Whether a fetch that is cut off comes anew. The end of the upload alone clears the flag.
fn comes_anew<A: Allocator + Copy>(manager: &mut Manager<A>, cut: Cut) -> bool {
    let is_changed = is_set(manager, 65, 50);
    let end = checked(StorageMode::Both, manager, None, Some(cut));
    let is_flag = manager.flag() == (cut.at < FETCH_REQUESTS - 1);
    cut_off(manager, cut.cause);
    is_changed
        && end == Some(AttemptResult::Transient)
        && is_flag
        && is_set(manager, 65, 51)
        && ends(StorageMode::Both, manager, None, AttemptResult::Fetched)
}

/// The same, at a new device.
fn fetch_comes_anew<A: Allocator + Copy>(alloc: A, table: &Table, cut: Cut) -> bool {
    match sensor(alloc, table) {
        Ok(mut manager) => comes_anew(&mut manager, cut),
        Err(_) => false,
    }
}

/// The same, whichever request is cut off.
fn fetches_come_anew<A: Allocator + Copy>(alloc: A, table: &Table, cause: Cause) -> bool {
    for at in 0..FETCH_REQUESTS {
        if !fetch_comes_anew(alloc, table, Cut { at, cause }) {
            return false;
        }
    }
    true
}

#[test]
fn a_fetch_that_is_cut_off_comes_anew(rt: HostRuntime) -> Result<(), Fail> {
    let table = table_of_sensor()?;
    check(&rt, fetches_come_anew(rt.alloc(), &table, Cause::LinkLost));
    check(
        &rt,
        fetches_come_anew(rt.alloc(), &table, Cause::BusyTooLong),
    );
    Ok(())
}

/// Whether a restore that is cut off changes nothing, and comes anew.
fn comes_back<A: Allocator + Copy>(manager: &mut Manager<A>, set: &Set, cut: Cut) -> bool {
    let end = checked(StorageMode::Both, manager, Some(set), Some(cut));
    let is_untouched = has(manager, 65, &[90]);
    cut_off(manager, cut.cause);
    end == Some(AttemptResult::Transient)
        && is_untouched
        && ends(
            StorageMode::Both,
            manager,
            Some(set),
            AttemptResult::Restored,
        )
        && has(manager, 65, &[50])
}

/// The same, at a new device.
fn restore_comes_anew<A: Allocator + Copy>(alloc: A, table: &Table, cut: Cut) -> bool {
    let (Ok(mut manager), Ok(set)) = (sensor(alloc, table), backup_set()) else {
        return false;
    };
    comes_back(&mut manager, &set, cut)
}

/// The same, whichever request is cut off.
fn restores_come_anew<A: Allocator + Copy>(alloc: A, table: &Table, cause: Cause) -> bool {
    for at in 0..RESTORE_REQUESTS {
        if !restore_comes_anew(alloc, table, Cut { at, cause }) {
            return false;
        }
    }
    true
}

#[test]
fn a_restore_that_is_cut_off_comes_anew(rt: HostRuntime) -> Result<(), Fail> {
    let table = table_of_sensor()?;
    check(&rt, restores_come_anew(rt.alloc(), &table, Cause::LinkLost));
    check(
        &rt,
        restores_come_anew(rt.alloc(), &table, Cause::BusyTooLong),
    );
    Ok(())
}

/// The next step of an attempt at a device whose user changes a value behind each end of an upload.
/// Answers whether it goes on.
fn step<A: Allocator + Copy>(
    attempt: &mut StorageAttempt,
    manager: &mut Manager<A>,
    draft: &mut Objects,
    fetches: u8,
) -> bool {
    let Some(request) = attempt.asks(None, draft) else {
        return false;
    };
    let answer = manager.carry(&request);
    attempt.hear(None, draft, &Outcome::Done(answer));
    !is_sent(&request, AFTER_SAVE[0].0) || is_set(manager, 65, fetches.saturating_add(50))
}

/// How often a set is fetched of such a device.
fn fetches_of<A: Allocator + Copy>(attempt: &mut StorageAttempt, manager: &mut Manager<A>) -> u8 {
    let mut draft = Objects::new();
    let mut fetches: u8 = 0;
    for _ in 0..MANY {
        if attempt.wants_saved() {
            fetches = fetches.saturating_add(1);
            attempt.saved();
        }
        if !step(attempt, manager, &mut draft, fetches) {
            break;
        }
    }
    fetches
}

#[test]
fn a_device_that_changes_on_and_on_is_left(rt: HostRuntime) -> Result<(), Fail> {
    let table = table_of_sensor()?;
    let mut manager = sensor(rt.alloc(), &table)?;
    let mut attempt = begun(StorageMode::Both);
    check(&rt, fetches_of(&mut attempt, &mut manager) == 3);
    check(&rt, attempt.result() == Some(AttemptResult::Transient));
    check(&rt, manager.flag());
    Ok(())
}

/// The octets of a set with its unit, and one value.
const UNIT_IMAGE: [u8; 25] = [
    1, 2, 3, 4, 0x12, 0x34, 0x00, 0x01, 0x07, 0, 0, // checksum, device
    0, 21, 0, 5, b'f', b'i', b'r', b's', b't', // the unit
    0, 64, 0, 1, 10, // a value
];

#[test]
fn a_set_has_its_unit_in_front(rt: HostRuntime) -> Result<(), Fail> {
    let set = Set::read(&UNIT_IMAGE)?;
    check(&rt, set.unit.as_slice() == &b"first"[..]);
    check(&rt, set.objects.len() == 1);
    check(&rt, is_image(&set, &UNIT_IMAGE));
    check(&rt, backup_set()?.unit.is_empty());
    Ok(())
}
