//! A desk is opened while another thread holds its port's lock.
ghost use Rattle.iol_master.specs.Ledgers.{IsBlankFor};

use crate::calls::{check, turns};
use crate::opening::{open_one, open_port};
use crate::slow::{Flags, is_set, slow_wire};
use iol_link::Wire;
use iol_master::Master;
use std::alloc::Global;
use std::marker::Brand;
use std::process::Abort;
use std::sync::Wait;
use std::sync::atomic::Ordering;
use std::sync::ledger::{Blank, Ledger};
use std::test::Fail;
use std::thread;
use std::thread::Threads;

/// Opens a desk once a call of the wire waits for it.
fn visit<W: Wire, L: Ledger, K: Ledger, R: Wait>(
    rt: &R,
    master: &Master<W, L, K>,
    flags: &Flags,
) -> bool {
    if !is_set(&flags.waiting) {
        return false;
    }
    let is_opened = master.desk(rt, 1).is_ok();
    flags.let_go.store(true, Ordering::SeqCst);
    is_opened
}

/// A turn under the port's lock, and a desk in another thread meanwhile.
fn beside<W: Wire + Send, L: Ledger + Sync, K: Ledger + Sync, R: Threads + Wait + Sync>(
    rt: &R,
    master: &Master<W, L, K>,
    flags: &Flags,
) -> (bool, bool) {
    thread::join(
        rt,
        move || turns(rt, master, 1, 1),
        move || visit(rt, master, flags),
    )
}

/// A desk is opened while a turn is under way.
fn lets_in<W: Wire + Send + Drop, L: Ledger + Sync, K: Ledger + Sync, R>(
    rt: &R,
    alloc: Global,
    wire: W,
    flags: &Flags,
    clients: Blank,
    tickets: Blank,
) -> Result<(), Fail>
where
    R: Threads + Wait + Abort + Sync,
    requires clients { IsBlankFor clients L.name L.parts 1025 }
    requires tickets { IsBlankFor tickets K.name K.parts 1 }
{
    let port = open_port(alloc, wire)?;
    let master = open_one::<W, L, K, Global, R>(rt, alloc, port, clients, tickets)?;
    flags.armed.store(true, Ordering::SeqCst);
    check(rt, beside(rt, &master, flags) == (true, true));
    check(rt, flags.was_let_go.load(Ordering::SeqCst));
    Ok(())
}

/// Refuses a `desk` that takes a port's lock.
#[test]
fn a_desk_is_opened_while_the_lock_is_held(rt: HostRuntime) -> Result<(), Fail> {
    let (wire, flags) = slow_wire(rt.alloc())?;
    let (clients, tickets) = (Blank::new(1025), Blank::new(1));
    lets_in::<_, Brand, Brand, HostRuntime>(&rt, rt.alloc(), wire, &flags, clients, tickets)
}
