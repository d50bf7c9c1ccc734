//! A test of a station, for whoever makes its turns without a port: no row reaches it.

use iol_app::{EventRoom, Said, Station};
use iol_isdu::{Answer, Place, Request};
use iol_link::Wire;
use iol_peers::{AnyWire, Exchange, STARTUP, Table};

/// A read of index 16, which is answered busy once, and then with two octets.
const READ: [Exchange; 3] = [
    (&[0x70, 0x5D, 0x93, 0x10, 0x83, 0, 0, 0, 0, 0], &[0x2D]),
    (&[0xF0, 0x75], &[1, 0, 0, 0, 0, 0, 0, 0, 0x3C]),
    (&[0xF0, 0x75], &[0xD4, 0x41, 0x42, 0xD7, 0, 0, 0, 0, 0x2D]),
];

/// After how many busy replies a request is cut off.
const BUSY_LIMIT: u16 = 100;

/// How many turns a start-up has.
const STARTUP_TURNS: u8 = 15;

/// Begins a request, where the station is ready for one. Answers whether it did.
fn begins<W: Wire>(station: &mut Station<W>, request: Request) -> bool {
    match (station.ready(EventRoom::Left), station.isdu()) {
        (true, Some(true)) => {
            station.begin(request);
            true
        }
        _ => false,
    }
}

/// The octets with which the third turn after that answers the read.
fn answered<W: Wire>(station: &mut Station<W>) -> Option<Answer> {
    if !matches!(station.turn(EventRoom::Left), Said::Busy) {
        return None;
    }
    if !matches!(station.turn(EventRoom::Left), Said::Busy) {
        return None;
    }
    match station.turn(EventRoom::Left) {
        Said::Answered(answer) => Some(answer),
        _ => None,
    }
}

#[test]
fn a_station_carries_out_a_read(rt: HostRuntime) {
    let mut station = Station::new(AnyWire(Table::new(&STARTUP, &READ)), BUSY_LIMIT);
    for _ in 0..STARTUP_TURNS {
        let _ = station.turn(EventRoom::Left);
    }
    assert!(rt; begins(&mut station, Request::read(Place { index: 16, sub: 0 })));
    assert!(rt; !begins(&mut station, Request::read(Place { index: 17, sub: 0 })));
    match answered(&mut station) {
        Some(Answer::Read(octets)) => assert!(rt; octets.as_slice() == [0x41, 0x42].as_slice()),
        _ => assert!(rt; false),
    }
}
