//! A table, and a manager, that own what they stand on.
ghost use Rattle.std.specs.Prelude.{◌≡◌, ◌≤◌, Some, None, IfOk, IfErr, length, false};
ghost use Rattle.std.specs.Result.{result_err};
ghost use Rattle.iol_params.specs.State.{after_end, after_quiet};
ghost use Rattle.iol_params.specs.Carry.{command, local_change, local_reset};
ghost use Rattle.iol_params.specs.Requests.{request_result};
ghost use Rattle.iol_params.specs.Image.{lasting_of, lasting_in, image_size, with_lasting};
ghost use Rattle.iol_params.specs.Manager.{new_manager, read_answer, parts_view, ArePartsOf};

use crate::error_type::ErrorType;
use crate::manager::Manager;
use crate::member::Member;
use crate::parts::ManagerParts;
use crate::state::{Activity, Command, Locks, Restart, Scope};
use crate::table::{OrderRule, Table, TableFault};
use core::mem::replace;
use iol_isdu::{Answer, Place, Request};
use std::alloc::{AllocError, Allocator, Global};
use std::marker::Model;

/// A table that owns its rows: for a device that no table outlives, as one that C holds. The
/// defaults of its members stay where they are, for good.
#[derive(Drop)]
pub struct OwnedTable<A: Allocator + Copy = Global> {
    members: Vec<Member<'static>, A>,
    rules: Vec<OrderRule, A>,
}

impl<A: Allocator + Copy> Model for OwnedTable<A> {
    ghost use Rattle.std.specs.Prelude.{◌≡◌, None};
    ghost use Rattle.iol_params.specs.Table.{ParamTable, table_fault};

    ghost Value = { ParamTable };

    ghost view = { λ t. record { members = t.members.items; rules = t.rules.items } };

    ghost invariant = { λ t. table_fault t.members.items t.rules.items ≡ None };
}

impl<A: Allocator + Copy> OwnedTable<A> {
    ghost use Rattle.iol_params.specs.Table.{table_fault};

    /// The table of these members and order rules, refused as [`Table::new`] refuses them.
    pub fn new(
        members: Vec<Member<'static>, A>,
        rules: Vec<OrderRule, A>,
    ) -> Result<OwnedTable<A>, TableFault>
        ensures table { let submitted = members.entry.items in IfOk result (λ t. t
            ≡ record { members = submitted; rules = rules.items }) }
        ensures sound { let submitted = members.entry.items in
            IfOk result (λ t. table_fault submitted rules.items ≡ None) }
        ensures fault { let submitted = members.entry.items in
            IfErr result (λ why. table_fault submitted rules.items ≡ Some why) }
    {
        Table::new(&members, &rules)?;
        Ok(OwnedTable { members, rules })
    }

    /// The table itself. Nothing is looked at again.
    pub fn table(&self) -> Table<'_>
        ensures { result ≡ self.now }
    {
        Table::of_sound(&self.members, &self.rules)
    }
}

/// A manager that owns its table. Each call is that of [`Manager`].
#[derive(Drop)]
pub struct OwnedManager<A: Allocator + Copy = Global> {
    alloc: A,
    table: OwnedTable<A>,
    parts: ManagerParts<A>,
}

impl<A: Allocator + Copy> Model for OwnedManager<A> {
    ghost use Rattle.iol_params.specs.Manager.{ManagerValue, parts_view, ArePartsOf};

    ghost Value = { ManagerValue };

    ghost view = { λ m. parts_view m.table m.parts };

    ghost invariant = { λ m. ArePartsOf m.table m.parts };
}

impl<A: Allocator + Copy> OwnedManager<A> {
    /// The manager of a table, as [`Manager::open`] opens it. No other call takes memory.
    pub fn open(alloc: A, table: OwnedTable<A>) -> Result<OwnedManager<A>, AllocError>
        ensures { IfOk result (λ m. m ≡ new_manager table) }
    {
        let parts = Manager::open(alloc, &table.table())?.into_parts();
        Ok(OwnedManager {
            alloc,
            table,
            parts,
        })
    }

    /// Carries out a request, as [`Manager::carry`] does.
    pub fn carry(&mut self, request: &Request) -> Answer
        ensures state { self.new ≡ record self.old {
          state = (request_result self.old.table self.old.state request.now).1;
        } }
        ensures answer { result ≡ (request_result self.old.table self.old.state request.now).0 }
    {
        let parts = replace(&mut self.parts, ManagerParts::none(self.alloc));
        let table = self.table.table();
        let mut manager = Manager::of_parts(&table, parts);
        let answer = manager.carry(request);
        self.parts = manager.into_parts();
        answer
    }

    /// A change at the device itself, as [`Manager::set`] makes it, and refused as that is.
    pub fn set(&mut self, place: Place, octets: &[u8]) -> Result<(), ErrorType>
        ensures state { let after = local_change self.old.table self.old.state place octets.now in
            self.new ≡ record self.old { state = after.1 } }
        ensures refusal { result_err result
            ≡ (local_change self.old.table self.old.state place octets.now).0 }
    {
        let parts = replace(&mut self.parts, ManagerParts::none(self.alloc));
        let table = self.table.table();
        let mut manager = Manager::of_parts(&table, parts);
        let outcome = manager.set(place, octets);
        self.parts = manager.into_parts();
        outcome
    }

    /// Carries out a command, as [`Manager::command`] does, and refused as that is.
    pub fn command(&mut self, scope: Scope, asked: Command) -> Result<(), ErrorType>
        ensures state { let after = command self.old.table self.old.state scope asked in
            self.new ≡ record self.old { state = after.1 } }
        ensures refusal { result_err result
            ≡ (command self.old.table self.old.state scope asked).0 }
    {
        let parts = replace(&mut self.parts, ManagerParts::none(self.alloc));
        let table = self.table.table();
        let mut manager = Manager::of_parts(&table, parts);
        let outcome = manager.command(scope, asked);
        self.parts = manager.into_parts();
        outcome
    }

    /// A factory reset at the device itself, as [`Manager::local_reset`] makes it, and refused as
    /// that is.
    pub fn local_reset(&mut self) -> Result<(), ErrorType>
        ensures state { let after = local_reset self.old.table self.old.state in
            self.new ≡ record self.old { state = after.1 } }
        ensures refusal { result_err result ≡ (local_reset self.old.table self.old.state).0 }
    {
        let parts = replace(&mut self.parts, ManagerParts::none(self.alloc));
        let table = self.table.table();
        let mut manager = Manager::of_parts(&table, parts);
        let outcome = manager.local_reset();
        self.parts = manager.into_parts();
        outcome
    }

    /// An activity ends, without effect, as [`Manager::over`] does it.
    pub fn over(&mut self)
        ensures { self.new ≡ record self.old { state = after_end self.old.state } }
    {
        let parts = replace(&mut self.parts, ManagerParts::none(self.alloc));
        let table = self.table.table();
        let mut manager = Manager::of_parts(&table, parts);
        manager.over();
        self.parts = manager.into_parts();
    }

    /// The master was silent, as [`Manager::silence`] says.
    pub fn silence(&mut self)
        ensures { self.new ≡ record self.old { state = after_quiet self.old.state } }
    {
        let parts = replace(&mut self.parts, ManagerParts::none(self.alloc));
        let table = self.table.table();
        let mut manager = Manager::of_parts(&table, parts);
        manager.silence();
        self.parts = manager.into_parts();
    }

    /// The power is back: what an image keeps is in force, as by [`Manager::restore`].
    pub fn restore(&mut self, image: &[u8])
        ensures { self.new ≡ record self.old {
          state = with_lasting self.old.state (lasting_in self.old.table image.now);
        } }
    {
        let parts = replace(&mut self.parts, ManagerParts::none(self.alloc));
        let table = self.table.table();
        let mut manager = Manager::of_parts(&table, parts);
        manager.restore(image);
        self.parts = manager.into_parts();
    }

    /// Answers a read of a parameter of the table, as [`Manager::read`] does.
    pub fn read(&mut self, place: Place) -> Answer
        ensures same { self.new ≡ self.old }
        ensures answer { result ≡ read_answer self.old.table self.old.state place }
    {
        let parts = replace(&mut self.parts, ManagerParts::none(self.alloc));
        let table = self.table.table();
        let manager = Manager::of_parts(&table, parts);
        let answer = manager.read(place);
        self.parts = manager.into_parts();
        answer
    }

    /// Writes the image of what outlives the power, as [`Manager::image_into`] does.
    pub fn image_into(&mut self, image: &mut [u8])
        requires { length image.old ≡ image_size self.old.table }
        ensures same { self.new ≡ self.old }
        ensures image { lasting_in self.old.table image.new ≡ Some (lasting_of self.old.state) }
    {
        let parts = replace(&mut self.parts, ManagerParts::none(self.alloc));
        let table = self.table.table();
        let manager = Manager::of_parts(&table, parts);
        manager.image_into(image);
        self.parts = manager.into_parts();
    }

    /// How many octets an image has, as [`Table::image_size`] says.
    pub fn image_size(&self) -> usize
        ensures value { result ≡ image_size self.now.table }
        ensures bound { result ≤ 256001 }
    {
        self.table.table().image_size()
    }

    /// Whether the event FF91 is to be raised.
    pub fn is_event_due(&self) -> bool
        ensures { result ≡ self.now.state.event_due }
    {
        self.parts.event_due
    }

    /// The event FF91 was raised.
    pub fn event_raised(&mut self)
        ensures { self.new ≡ record self.old {
          state = record self.old.state { event_due = false };
        } }
    {
        self.parts.event_due = false;
    }

    /// What the program itself has to do since a reset that the master asked for.
    pub fn restart(&self) -> Restart
        ensures { result ≡ self.now.state.restart }
    {
        self.parts.restart
    }

    /// What is under way.
    pub fn activity(&self) -> Activity
        ensures { result ≡ self.now.state.activity }
    {
        self.parts.activity
    }

    /// The locks.
    pub fn locks(&self) -> Locks
        ensures { result ≡ self.now.state.locks }
    {
        self.parts.locks
    }
}
