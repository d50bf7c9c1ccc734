//! Tests of links whose types have a mode, and of links in place. A port has neither, so no row
//! reaches them: what they send and when they change is in the rows of ports.
ghost use Rattle.std.specs.Prelude.{IsTrue, IfSome};
ghost use Rattle.iol_mseq.specs.Master.{HasMasterParts};
ghost use Rattle.iol_mode.specs.Messages.{stays};

use iol_link::Wire;
use iol_mode::{AnyLink, Link, Next, State, Why};
use iol_mseq::{Layout, MasterMsg, Part};
use iol_octets::{Channel, Mc};
use iol_page::Layouts;
use iol_peers::{AnyWire, Exchange, STARTUP, Table};

/// IDLE 1, answered once, and then three times without a reply.
const ONWARDS: [Exchange; 4] = [
    (&[0xF1, 0x64], &[0, 0, 0, 0, 0, 0, 0, 0, 0x2D]),
    (&[0xF1, 0x64], &[]),
    (&[0xF1, 0x64], &[]),
    (&[0xF1, 0x64], &[]),
];

/// A wire that answers by a start-up, and then by that table.
fn scripted() -> AnyWire<Table<'static>> {
    AnyWire(Table::new(&STARTUP, &ONWARDS))
}

/// IDLE 1, in a layout without process data out.
fn idle(layout: &Layout) -> Option<MasterMsg>
    ensures { IfSome result (λ m. HasMasterParts layout.now m × IsTrue (stays m)) }
{
    if layout.pd_out() != 0 {
        return None;
    }
    Some(MasterMsg {
        mc: Mc {
            read: true,
            channel: Channel::Isdu,
            address: 0x11,
        },
        out: Part::new(),
        od: Part::new(),
    })
}

/// One turn; in OPERATE with IDLE 1.
fn turned<W: Wire>(next: Next<W>) -> Next<W> {
    match next {
        Next::Down(link) => link.turn(),
        Next::Startup(link) => link.turn(),
        Next::Preoperate(link) => link.turn(),
        Next::Operate(link, reply) => match idle(&link.layout()) {
            Some(message) => link.turn(&message),
            None => Next::Operate(link, reply),
        },
    }
}

fn turned_times<W: Wire>(wire: W, times: u8) -> Next<W> {
    let mut next = Next::Down(Link::new(wire));
    for _ in 0..times {
        next = turned(next);
    }
    next
}

/// The same in place.
fn turn_in_place<W: Wire>(link: &mut AnyLink<W>) {
    match link.state() {
        State::Down(_) => {
            link.wake();
        }
        State::Startup(_) | State::Preoperate(_) => {
            link.rise();
        }
        State::Operate(operate) => {
            if let Some(message) = idle(&operate.layouts.run) {
                link.exchange(&message);
            }
        }
    }
}

fn turned_in_place<W: Wire>(wire: W, times: u8) -> AnyLink<W> {
    let mut link = AnyLink::open(wire);
    for _ in 0..times {
        turn_in_place(&mut link);
    }
    link
}

/// The mode, the layouts that the page told, and how many exchanges went by the script.
#[derive(Clone, Copy, PartialEq)]
enum Observed {
    Down(Option<Why>),
    Startup(Option<Layouts>, usize),
    Preoperate(Option<Layouts>, usize),
    Operate(Option<Layouts>, usize),
}

/// A wire that knows how many exchanges went by its script. It has no clauses.
trait HasScript: Wire {
    fn followed(&self) -> usize;
}

impl<'a> HasScript for AnyWire<Table<'a>> {
    fn followed(&self) -> usize {
        self.0.followed
    }
}

fn state_of<W: HasScript>(next: &Next<W>) -> Observed {
    match next {
        Next::Down(link) => Observed::Down(link.why()),
        Next::Startup(link) => Observed::Startup(
            link.layouts_read().copied(),
            link.wire().followed(),
        ),
        Next::Preoperate(link) => Observed::Preoperate(
            link.layouts_read().copied(),
            link.wire().followed(),
        ),
        Next::Operate(link, _) => Observed::Operate(
            link.layouts_read().copied(),
            link.wire().followed(),
        ),
    }
}

fn state_in_place<W: HasScript>(link: &AnyLink<W>) -> Observed {
    let followed = link.wire().followed();
    match link.state() {
        State::Down(down) => Observed::Down(down.why),
        State::Startup(startup) => Observed::Startup(startup.layouts_read().copied(), followed),
        State::Preoperate(preoperate) => Observed::Preoperate(Some(preoperate.layouts), followed),
        State::Operate(operate) => Observed::Operate(Some(operate.layouts), followed),
    }
}

/// Eight octets of on-request data alone, in both modes.
fn layouts() -> Option<Layouts> {
    Some(Layouts {
        pre: Some(Layout::preoperate(2).ok()?),
        run: Layout::operate(6, 0, 0).ok()?,
        isdu: true,
    })
}

#[test]
fn both_kinds_of_links_start_up(rt: HostRuntime) {
    for (turns, expected) in [
        (0, Observed::Down(None)),
        (1, Observed::Startup(None, 0)),
        (10, Observed::Startup(None, 9)),
        (11, Observed::Startup(layouts(), 10)),
        (13, Observed::Preoperate(layouts(), 12)),
        (15, Observed::Operate(layouts(), 14)),
        (18, Observed::Operate(layouts(), 17)),
        (19, Observed::Down(Some(Why::Lost))),
    ] {
        assert!(rt; state_of(&turned_times(scripted(), turns)) == expected);
        assert!(rt; state_in_place(&turned_in_place(scripted(), turns)) == expected);
    }
}

/// How many exchanges went by the script of this wire, which a link in OPERATE hands back.
fn handed_back<W: HasScript + Drop>(wire: W) -> Option<usize> {
    let Next::Operate(link, None) = turned_times(wire, 17) else {
        return None;
    };
    let is_idle = link.out() == idle(&link.layout()).as_ref();
    let link = link.down();
    if !is_idle || link.why().is_some() {
        return None;
    }
    Some(link.into_wire().followed())
}

/// The same of a link in place.
fn handed_back_in_place<W: HasScript + Drop>(wire: W) -> Option<usize> {
    let mut link = turned_in_place(wire, 17);
    link.leave();
    if state_in_place(&link) != Observed::Down(None) {
        return None;
    }
    Some(link.close().followed())
}

#[test]
fn both_kinds_of_links_give_their_wire_back(rt: HostRuntime) {
    assert!(rt; handed_back(scripted()) == Some(16));
    assert!(rt; handed_back_in_place(scripted()) == Some(16));
}
