//! Each request of the master: to a parameter of the table, or to one of the manager's own.
ghost use Rattle.std.specs.Prelude.{◌≡◌};
ghost use Rattle.std.specs.Result.{result_err};
ghost use Rattle.iol_params.specs.Requests.{request_result, read_request, storage_read, write_request, storage_write, command_write, locks_write};

use crate::cells;
use crate::error_type::ErrorType;
use crate::manager::Manager;
use crate::state::{Locks, Scope};
use iol_isdu::{Answer, Place, Request};
use std::alloc::Allocator;

/// Index 2: SystemCommand.
const SYSTEM_COMMAND: u16 = 2;
/// Index 3: Data Storage.
const DATA_STORAGE: u16 = 3;
/// Index 12: Device access locks.
const ACCESS_LOCKS: u16 = 12;

impl<'a, A: Allocator + Copy> Manager<'a, A> {
    /// Carries out a request, and answers it.
    ///
    /// Index 2 takes SystemCommands, Index 3 is Data Storage, Index 12 has the locks; all others
    /// are the table's. Refused with the code of [`ErrorType`], and then no value changes.
    ///
    /// Rules PAR-3, PAR-7.
    pub fn carry(&mut self, request: &Request) -> Answer
        ensures state { self.new ≡ record self.old {
          state = (request_result self.old.table self.old.state request.now).1;
        } }
        ensures answer { result ≡ (request_result self.old.table self.old.state request.now).0 }
    {
        match request {
            Request::Read(place) => self.read_any(*place),
            Request::Write(place, octets) => match self.write_any(*place, octets) {
                Ok(()) => Answer::Written,
                Err(why) => why.answer(),
            },
        }
    }

    fn read_any(&self, place: Place) -> Answer
        ensures { result ≡ read_request self.now.table self.now.state place }
    {
        if place.index == DATA_STORAGE {
            self.read_storage(place.sub)
        } else if place.index != SYSTEM_COMMAND && place.index != ACCESS_LOCKS {
            self.read(place)
        } else if place.sub != 0 {
            ErrorType::SubindexNotAvailable.answer()
        } else if place.index == SYSTEM_COMMAND {
            ErrorType::AccessDenied.answer()
        } else {
            Answer::Read(cells::octets_of(&[0, self.locks().octet()]))
        }
    }

    fn read_storage(&self, sub: u8) -> Answer
        ensures { result ≡ storage_read self.now.table self.now.state sub }
    {
        if sub == 1 {
            ErrorType::AccessDenied.answer()
        } else if 2 <= sub && sub <= 5 {
            Answer::Read(self.storage_value(sub))
        } else {
            ErrorType::SubindexNotAvailable.answer()
        }
    }

    fn write_any(&mut self, place: Place, octets: &[u8]) -> Result<(), ErrorType>
        ensures state { let after = write_request self.old.table self.old.state place octets.now in
            self.new ≡ record self.old { state = after.1 } }
        ensures refusal { result_err result
            ≡ (write_request self.old.table self.old.state place octets.now).0 }
    {
        if place.index == DATA_STORAGE {
            self.write_storage(place.sub, octets)
        } else if place.index != SYSTEM_COMMAND && place.index != ACCESS_LOCKS {
            self.write(place, octets)
        } else if place.sub != 0 {
            Err(ErrorType::SubindexNotAvailable)
        } else if place.index == SYSTEM_COMMAND {
            self.write_command(ErrorType::FunctionNotAvailable, Scope::Block, octets)
        } else {
            self.write_locks(octets)
        }
    }

    fn write_command(
        &mut self,
        unknown: ErrorType,
        scope: Scope,
        octets: &[u8],
    ) -> Result<(), ErrorType>
        ensures state { let after
            = command_write unknown self.old.table self.old.state scope octets.now in
            self.new ≡ record self.old { state = after.1 } }
        ensures refusal { result_err result
            ≡ (command_write unknown self.old.table self.old.state scope octets.now).0 }
    {
        match octets {
            [octet] => match scope.command(*octet) {
                Some(asked) => self.command(scope, asked),
                None => Err(unknown),
            },
            [] => Err(ErrorType::TooShort),
            _ => Err(ErrorType::TooLong),
        }
    }

    fn write_storage(&mut self, sub: u8, octets: &[u8]) -> Result<(), ErrorType>
        ensures state { let after = storage_write self.old.table self.old.state sub octets.now in
            self.new ≡ record self.old { state = after.1 } }
        ensures refusal { result_err result
            ≡ (storage_write self.old.table self.old.state sub octets.now).0 }
    {
        if sub == 1 {
            if self.locks().storage {
                return Err(ErrorType::AccessDenied);
            }
            self.write_command(ErrorType::ValueOutOfRange, Scope::Storage, octets)
        } else if 2 <= sub && sub <= 5 {
            Err(ErrorType::AccessDenied)
        } else {
            Err(ErrorType::SubindexNotAvailable)
        }
    }

    fn write_locks(&mut self, octets: &[u8]) -> Result<(), ErrorType>
        ensures state { let after = locks_write self.old.state octets.now in
            self.new ≡ record self.old { state = after.1 } }
        ensures refusal { result_err result
            ≡ (locks_write self.old.state octets.now).0 }
    {
        if !(self.activity().is_at_rest() && self.activity().takes_writes()) {
            return Err(ErrorType::FunctionUnavailable);
        }
        match octets {
            [high, low] => {
                if *high != 0 || *low >= 16 {
                    return Err(ErrorType::ValueOutOfRange);
                }
                self.set_locks(Locks::of(*low));
                Ok(())
            }
            [] | [_] => Err(ErrorType::TooShort),
            _ => Err(ErrorType::TooLong),
        }
    }
}
