//! Tests of a device: memory that is refused, and laws.
ghost use Rattle.std.specs.Prelude.{◌≡◌};

use iol_device::{Apart, App, Device, DeviceFault, FullRecord, Record};
use iol_far::{
    ends_stay_level, events_stay_until_confirmed, hearing_again_changes_nothing, links_stay_level,
    messages_are_heard, modes_have_layouts, page_and_room_stay, replies_are_read,
    requests_are_received, texts_are_heard,
};
use iol_isdu::{Answer, Request};
use iol_page::Page;
use iol_peers::PLAIN;
use refusing_alloc::{Refusal, RefusingAlloc};

/// Has no parameter. Its number tells whether it is handed back as it was.
#[derive(Clone, Copy)]
struct Numbered(u8);

impl App for Numbered {
    ghost carry_out_gives = { λ app request answer next. next ≡ app };

    /// Refuses each request: index not available.
    fn carry_out(&mut self, _request: &Request) -> Answer {
        Answer::Refused(0x80, 0x11)
    }
}

const APP: Numbered = Numbered(7);

/// Reads page address 0x02 in STARTUP, and what is answered.
const PAGE_READ: [u8; 2] = [0xA2, 0x00];

const PAGE_OCTET: [u8; 2] = [0x17, 0x1B];

/// A device with a record over memory that an order refuses.
type Recording<'a> = Device<Numbered, FullRecord<&'a RefusingAlloc>>;

fn opened(refusing: &RefusingAlloc) -> Result<Recording<'_>, (DeviceFault, Numbered)> {
    Device::open(refusing, APP, Page::from_octets(&PLAIN), 2)
}

/// Whether an order leaves no memory for a device, and its application comes back.
fn is_refused(refusing: &RefusingAlloc, refusal: Refusal) -> bool {
    refusing.order(refusal);
    match opened(refusing) {
        Ok(_) => false,
        Err((fault, app)) => {
            refusing.has_refused() && fault == DeviceFault::OutOfMemory && app.0 == APP.0
        }
    }
}

/// Whether a device, once it is woken, answers these octets by those.
fn answers<P: App, R: Record>(device: &mut Device<P, R>, octets: &[u8], wanted: &[u8]) -> bool {
    device.wake();
    match device.hear(octets) {
        Some(reply) => reply.as_slice() == wanted,
        None => false,
    }
}

/// Whether a device is opened without a refusal, and answers.
fn is_opened(refusing: &RefusingAlloc) -> bool {
    match opened(refusing) {
        Ok(mut device) => {
            answers(&mut device, &PAGE_READ, &PAGE_OCTET) && !refusing.has_refused()
        }
        Err(_) => false,
    }
}

/// A device asks for memory once, for its record.
#[test]
fn memory_is_asked_for_once(rt: HostRuntime) {
    let refusing = RefusingAlloc::new(rt.alloc());
    let are_refused = is_refused(&refusing, Refusal::Only(0))
        && is_refused(&refusing, Refusal::From(0));
    refusing.order(Refusal::From(1));
    assert!(rt; are_refused && is_opened(&refusing));
}

/// The laws of this device, which do nothing when they run.
fn laws_of<P: App, R: Record>(device: &Device<P, R>) {
    device.app_follows_record();
    device.numbers_are_own();
    device.parts_are_regular();
}

/// Whether there is a device with a record, whose laws these are.
fn has_laws(refusing: &RefusingAlloc) -> bool {
    match opened(refusing) {
        Ok(device) => {
            laws_of(&device);
            true
        }
        Err(_) => false,
    }
}

#[test]
fn laws_speak_of_each_device(rt: HostRuntime) {
    let refusing = RefusingAlloc::new(rt.alloc());
    assert!(rt; has_laws(&refusing));
    laws_of(&Device::new(APP, Page::from_octets(&PLAIN)));
    laws_of(&Device::new(Apart, Page::from_octets(&PLAIN)));
}

#[test]
fn laws_of_the_far_end_need_no_device() {
    ends_stay_level();
    events_stay_until_confirmed();
    hearing_again_changes_nothing();
    links_stay_level();
    messages_are_heard();
    modes_have_layouts();
    page_and_room_stay();
    replies_are_read();
    requests_are_received();
    texts_are_heard();
}

/// No message is expected asleep; else one octet, and then as many as the layout says.
#[test]
fn a_message_is_expected(rt: HostRuntime) {
    let mut device = Device::new(Apart, Page::from_octets(&PLAIN));
    assert_eq!(rt; device.expects(&PAGE_READ), 0);
    device.wake();
    assert_eq!(rt; device.expects(&[]), 1);
    assert_eq!(rt; device.expects(&PAGE_READ), 2);
    assert_eq!(rt; device.expects(&[0x20]), 3);
}
