//! The master: its ports and its tally, each under a lock.
ghost use Rattle.std.specs.Prelude.{◌≡◌, ◌≤◌, ◌⊎◌, Err, All, vec_len, MatchResult, MatchOption};
ghost use Rattle.iol_master.specs.declared.fault.MasterFault.TheVariants as fault;
ghost use Rattle.iol_master.specs.declared.ports.DeskUrgency.TheVariants as urgency;
ghost use Rattle.iol_master.specs.Tickets.{HasIssued};
ghost use Rattle.iol_master.specs.Entered.{WasEntered, WasClosed};
ghost use Rattle.iol_master.specs.Master.{IsPortNumber, Desks, DeskCountsSubmit, SettledAs};
ghost use Rattle.iol_master.specs.Master.{WasOpened, WasSettled};
ghost use Rattle.iol_master.specs.Counts.{IsClosed};
ghost use Rattle.iol_master.specs.Left.{WasLeft};
ghost use Rattle.iol_master.specs.Ledgers.{IsBlankFor};
ghost use Rattle.iol_port.specs.declared.awaited.AwaitedAnswer.TheVariants as AwaitedAnswer;
ghost use Rattle.iol_port.specs.CorePort.{awaited_answer};

use crate::accounts::{Accounts, Desk, Settled, Tally};
use crate::fault::MasterFault;
use crate::held::Held;
use crate::ports::{DeskUrgency, MasterPort};
use crate::wired::Wired;
use iol_book::Ticket;
use iol_cell::Handle;
use iol_isdu::Request;
use iol_link::Wire;
use iol_port::Port;
use iol_storage::StoredPort;
use std::alloc::Global;
use std::marker::Model;
use std::sync::ledger::{Blank, Ledger};
use std::sync::{Mutex, MutexGuard, Wait};

/// Several ports, each under a lock of its own, and their clients' tally under one more.
///
/// Ports are numbered from 1. L and K name two ledgers: of the submits that were accepted, by desk,
/// and of the tickets that were given, by port.
///
/// A port's lock is taken first, then the tally's: both submits take both in this order,
/// [`Master::settle`] one after the other, [`Master::lock`] and each worker's turn a port's only,
/// [`Master::desk`] the tally's only. No call takes the locks of two ports, and none waits for a
/// port's while it has the tally's. So a thread that holds a port's guard may open desks, and must
/// let go of the guard before it submits or settles at that port, takes its lock again or waits for
/// `serve`. What a port publishes is read at a seat of crate iol_cell, without any lock.
///
/// No call but `open`, both submits and `serve` asks for memory.
///
/// Contracts see the number of the ports. What lies under a lock no clause of a call that takes it
/// can name. So they say what the caller holds before and after, its desk and the answer, and that
/// there was a port or a tally, whose lock was held, at which this very call was made. The exact
/// clauses are those of the calls on a value whose lock is held: of [`Held`], and inside this crate
/// of `Held::submit` and of the tally.
#[derive(Drop)]
pub struct Master<W: Wire, L: Ledger, K: Ledger, A: Handle = Global, P: MasterPort = Port<W, A>> {
    pub(crate) ports: Vec<Mutex<Held<W, K, A, P>>, A>,
    accounts: Mutex<Accounts<L, K>>,
}

impl<W: Wire, L: Ledger, K: Ledger, A: Handle, P: MasterPort> Model for Master<W, L, K, A, P> {
    ghost use Rattle.std.specs.Prelude.{◌≡◌, ℕ, ◌<◌, ◌≤◌, vec_len};

    ghost Value = { ℕ };

    ghost view = { λ m. vec_len m.ports };

    ghost invariant = { λ m. (vec_len m.ports ≡ K.parts) × (0 < K.parts) × (K.parts ≤ 32) };
}

impl<W: Wire, L: Ledger, K: Ledger, A: Handle> Master<W, L, K, A> {
    /// A master of these 1 to 32 ports, which gave no ticket yet.
    ///
    /// The blanks name its ledgers and are used up: one of 1,025 parts for the desks, one with a
    /// part for each port. A port that is to publish its image has its writer already. Refused by
    /// 24 where there is no memory for the locks, the only thing asked for; the ports are handed
    /// back.
    pub fn open(
        alloc: A,
        ports: Vec<Port<W, A>, A>,
        clients: Blank,
        tickets: Blank,
    ) -> Result<Master<W, L, K, A>, (MasterFault, Vec<Port<W, A>, A>)>
    where
        W: Drop,
        requires clients { IsBlankFor clients L.name L.parts 1025 }
        requires tickets { IsBlankFor tickets K.name K.parts (vec_len ports) }
        requires count { (1 ≤ vec_len ports) × (vec_len ports ≤ 32) }
        requires fresh { All (λ p. HasIssued p 0) ports.items }
        ensures { MatchResult result (λ m. m ≡ vec_len ports)
            (λ e. (e.0 ≡ fault.OutOfMemory) × (e.1 ≡ ports)) }
    {
        Master::of_ports(alloc, ports, clients, tickets)
    }
}

impl<W: Wire, L: Ledger, K: Ledger, A: Handle> Master<W, L, K, A, Wired<W, StoredPort<A>>> {
    /// A master of these 1 to 32 ports with Data Storage, at which nothing is out, as
    /// [`Master::open`].
    pub fn open_stored(
        alloc: A,
        ports: Vec<Wired<W, StoredPort<A>>, A>,
        clients: Blank,
        tickets: Blank,
    ) -> Result<
        Master<W, L, K, A, Wired<W, StoredPort<A>>>,
        (MasterFault, Vec<Wired<W, StoredPort<A>>, A>),
    >
    where
        W: Drop,
        requires clients { IsBlankFor clients L.name L.parts 1025 }
        requires tickets { IsBlankFor tickets K.name K.parts (vec_len ports) }
        requires count { (1 ≤ vec_len ports) × (vec_len ports ≤ 32) }
        requires rest { All (λ p. awaited_answer p.port.port ≡ AwaitedAnswer.Nothing)
            ports.items }
        ensures { MatchResult result (λ m. m ≡ vec_len ports)
            (λ e. (e.0 ≡ fault.OutOfMemory) × (e.1 ≡ ports)) }
    {
        Master::of_ports(alloc, ports, clients, tickets)
    }
}

impl<W: Wire, L: Ledger, K: Ledger, A: Handle, P: MasterPort> Master<W, L, K, A, P> {
    /// A master of these ports, as [`Master::open`].
    fn of_ports(
        alloc: A,
        ports: Vec<P, A>,
        clients: Blank,
        tickets: Blank,
    ) -> Result<Master<W, L, K, A, P>, (MasterFault, Vec<P, A>)>
    where
        P: Drop,
        requires clients { IsBlankFor clients L.name L.parts 1025 }
        requires tickets { IsBlankFor tickets K.name K.parts (vec_len ports) }
        requires count { (1 ≤ vec_len ports) × (vec_len ports ≤ 32) }
        requires fresh { All (λ p. P.facts.holds p 0) ports.items }
        ensures { MatchResult result (λ m. m ≡ vec_len ports)
            (λ e. (e.0 ≡ fault.OutOfMemory) × (e.1 ≡ ports)) }
    {
        let count = ports.len();
        let Ok(mut locks) = Vec::with_capacity(alloc, count) else {
            return Err((MasterFault::OutOfMemory, ports));
        };
        let (accounts, mut rest) = Accounts::<L, K>::open(clients, tickets);
        for port in ports {
            let share = rest.split_off(1, 0);
            locks.push_reserved(Mutex::new(Held::new(port, share)));
        }
        Ok(Master {
            ports: locks,
            accounts: Mutex::new(accounts),
        })
    }

    /// The lock of a port. No clause tells two locks apart, so which one it is a test holds, as at
    /// [`Master::lock`].
    fn port(&self, port: u32) -> Option<&Mutex<Held<W, K, A, P>>>
        ensures { MatchOption result (¬ IsPortNumber self.now port)
            (λ _. IsPortNumber self.now port) }
    {
        if port == 0 || port as usize > self.ports.len() {
            return None;
        }
        Some(&self.ports[port as usize - 1])
    }

    /// Opens a desk at a port, with no submit.
    ///
    /// Refused by 31 where there is no such port, and then by 33 where 1,024 desks are open at this
    /// master.
    pub fn desk<R: Wait>(&self, rt: &R, port: u32) -> Result<Desk<L>, MasterFault>
        ensures desks { Desks self.now port result }
        ensures opened { (result ≡ Err fault.NoSuchPort) ⊎ WasOpened port result }
    {
        if self.port(port).is_none() {
            return Err(MasterFault::NoSuchPort);
        }
        self.accounts
            .lock(rt)
            .desk(port)
            .ok_or(MasterFault::DesksFull)
    }

    /// Submits a request at a desk's port. The desk counts one more exactly where a ticket is
    /// answered.
    ///
    /// The desk has that ticket from then on, as long as it may be outstanding: at each submit that
    /// is accepted it forgets those that are not. Memory is asked for by the port's book alone, for
    /// the ticket's place and its entries.
    ///
    /// Refused, with nothing changed, by the first of 31 where there is no such port, 23 where the
    /// master's ports gave 2^64 - 1 tickets, 21 where 64 of the desk's tickets are outstanding, as
    /// many as any port is opened for, and then as the port refuses it: 21 where as many tickets
    /// are outstanding there as it was opened for, 22 where its journal has no room for the
    /// request's entries, 23 where its last ticket was 2^64 - 1, and 24 where a growth was refused.
    pub fn submit<R: Wait>(
        &self,
        rt: &R,
        desk: &mut Desk<L>,
        request: Request,
    ) -> Result<Ticket, MasterFault>
        ensures submitted { DeskCountsSubmit P.facts.refuses self.now desk.old result desk.new }
        ensures entered { (result ≡ Err fault.NoSuchPort)
            ⊎ WasEntered P.facts desk.old urgency.Ordinary request result desk.new }
    {
        self.enter(rt, desk, DeskUrgency::Ordinary, request)
    }

    /// Submits an urgent request at a desk's port, where it waits before all others but the urgent
    /// ones. A request that is under way isn't stopped by it.
    ///
    /// Refused, with nothing changed, as `submit` is.
    pub fn submit_urgent<R: Wait>(
        &self,
        rt: &R,
        desk: &mut Desk<L>,
        request: Request,
    ) -> Result<Ticket, MasterFault>
        ensures submitted { DeskCountsSubmit P.facts.refuses self.now desk.old result desk.new }
        ensures entered { (result ≡ Err fault.NoSuchPort)
            ⊎ WasEntered P.facts desk.old urgency.Urgent request result desk.new }
    {
        self.enter(rt, desk, DeskUrgency::Urgent, request)
    }

    fn enter<R: Wait>(
        &self,
        rt: &R,
        desk: &mut Desk<L>,
        urgency: DeskUrgency,
        request: Request,
    ) -> Result<Ticket, MasterFault>
        ensures submitted { DeskCountsSubmit P.facts.refuses self.now desk.old result desk.new }
        ensures entered { (result ≡ Err fault.NoSuchPort)
            ⊎ WasEntered P.facts desk.old urgency request result desk.new }
    {
        let Some(port) = self.port(desk.port()) else {
            return Err(MasterFault::NoSuchPort);
        };
        let mut held = port.lock(rt);
        let mut accounts = self.accounts.lock(rt);
        held.submit(&mut accounts, desk, urgency, request)
    }

    /// Takes a port's lock, which is let go when the guard is dropped. Refused by 31 where there is
    /// no such port.
    ///
    /// No clause says of which port the guard is. Test `two_ports_are_served` of crate
    /// iol_master_tests holds it.
    pub fn lock<R: Wait>(
        &self,
        rt: &R,
        port: u32,
    ) -> Result<MutexGuard<'_, Held<W, K, A, P>>, MasterFault>
        ensures { MatchResult result (λ _. IsPortNumber self.now port)
            (λ e. (e ≡ fault.NoSuchPort) × (¬ IsPortNumber self.now port)) }
    {
        match self.port(port) {
            Some(held) => Ok(held.lock(rt)),
            None => Err(MasterFault::NoSuchPort),
        }
    }

    /// Closes a desk, whose place another may take, and tells what it counted; of the last one open
    /// also what all desks counted.
    ///
    /// Before that its tickets that are outstanding at its port are abandoned, as by
    /// [`PortCore::abandon`](iol_port::PortCore::abandon): what nobody will collect keeps no place
    /// there. For that it waits for the port's lock, and has no other then.
    pub fn settle<R: Wait>(&self, rt: &R, desk: Desk<L>) -> Settled
        ensures settlement { SettledAs desk.accepted result }
        ensures settled { WasSettled desk result }
        ensures left { (¬ IsPortNumber self.now desk.port) ⊎ WasLeft P.facts desk.tickets }
    {
        self.leave(rt, &desk);
        self.accounts.lock(rt).settle(desk)
    }

    /// Abandons a desk's tickets at its port, whose lock alone is held meanwhile.
    fn leave<R: Wait>(&self, rt: &R, desk: &Desk<L>)
        ensures { (¬ IsPortNumber self.now desk.now.port) ⊎ WasLeft P.facts desk.now.tickets }
    {
        if let Some(port) = self.port(desk.port()) {
            port.lock(rt).leave(desk.tickets());
        }
    }

    /// Closes the master, drops its ports and tells what was counted.
    pub fn close(self) -> Tally
    where
        P: Drop,
        ensures closed { IsClosed result }
        ensures gathered { WasClosed P.facts self result }
    {
        let Master {
            mut ports,
            accounts,
        } = self;
        let mut accounts = accounts.into_inner();
        let Some(first) = ports.pop() else {
            unreachable!()
        };
        let (mut whole, mut tickets) = first.into_inner().close();
        for held in ports {
            let (share, accepted) = held.into_inner().close();
            accounts.gather(&mut whole, share);
            tickets += accepted;
        }
        accounts.close(whole, tickets)
    }
}
