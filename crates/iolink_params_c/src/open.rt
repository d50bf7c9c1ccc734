//! Opening and closing.
ghost use Rattle.std.specs.Prelude.{◌≡◌, true, false, IsTrue, IsFalse, IsOk, IfOk, IfErr, None};
ghost use Rattle.iol_page.specs.Page.{layouts_of};
ghost use Rattle.iol_params.specs.Table.{table_fault};
ghost use Rattle.iol_params.specs.Manager.{new_manager};
ghost use Rattle.iolink_params_c.specs.declared.sensor.Unsaved.{Unsaved};
ghost use Rattle.iolink_params_c.specs.Rows.{table_of};
ghost use Rattle.iolink_params_c.specs.Calls.{ParamsAreRefused, HandleOpensTable, OnFlaw, IsTableRefusal, IsNewDevice};

use crate::held::IolParams;
use crate::rows::{IolOrderRule, IolParamRow, are_rows, members_of, rules_of};
use crate::sensor::{ParamSensor, Unsaved};
use iol_device::{Apart, Device};
use iol_page::Page;
use iol_params::{OwnedManager, OwnedTable};
use iolink_handle::{CLOSED, IS_OPEN, OUT_OF_MEMORY, OUT_OF_RANGE};
use std::alloc::Global;

/// Opens a device with this direct parameter page 1 and this table, asleep. What `image` keeps is
/// in force: octets that the table doesn't allow as such, as none, keep nothing. It takes no memory
/// after this.
///
/// 0, or the first of these that holds, with the handle as it was: 253 it is open already; 8, 7 or
/// 2 the page is refused; 254 a number of a row means nothing; 24, before a flaw is seen too, there
/// is no memory; 50 to 58 the flaw of the table, whose row is in `row` then.
#[tactic(auto, using(crate::proofs::Refusing::page_faults_are_not))]
#[unsafe(no_mangle)]
pub extern "C" fn iol_params_open(
    alloc: Global,
    handle: &mut IolParams,
    page: &[u8; 10],
    rows: &'static [IolParamRow<'static>],
    rules: &[IolOrderRule],
    image: &[u8],
    row: &mut usize,
) -> u8
    ensures opens { HandleOpensTable page.now rows.now rules.now image.now handle.old result
        handle.new }
    ensures row { OnFlaw (table_of rows.now rules.now) result row.old row.new }
{
    if handle.is_open {
        return IS_OPEN;
    }
    let page = Page::from_octets(page);
    if let Err(fault) = page.layouts() {
        return fault.code();
    }
    if !are_rows(rows) {
        return OUT_OF_RANGE;
    }
    let sensor = match sensor_with(alloc, page, rows, rules, row) {
        Ok(sensor) => sensor,
        Err(code) => return code,
    };
    match Box::new(alloc, sensor) {
        Ok(mut sensor) => {
            sensor.manager.restore(image);
            *handle = IolParams::of(sensor);
            0
        }
        Err(_) => OUT_OF_MEMORY,
    }
}

/// A device with a table, which has what that has at first.
///
/// Refused with 24, or with the number of the table's flaw, whose row is in `row` then.
#[tactic(auto, using(crate::proofs::Refusing::flaws_are))]
fn sensor_with(
    alloc: Global,
    page: Page,
    rows: &'static [IolParamRow<'static>],
    rules: &[IolOrderRule],
    row: &mut usize,
) -> Result<ParamSensor, u8>
    requires page { IsOk (layouts_of page) }
    ensures device { IfOk result (λ s. IsNewDevice page s.device) }
    ensures manager { IfOk result (λ s. s.manager ≡ new_manager (table_of rows.now rules.now)) }
    ensures unsaved { IfOk result (λ s. s.unsaved ≡ Unsaved.Nothing) }
    ensures sound { let t = table_of rows.now rules.now in
        IfOk result (λ s. table_fault t.members t.rules ≡ None) }
    ensures unchanged { IfOk result (λ s. row.new ≡ row.old) }
    ensures refused { IfErr result (λ code. IsTableRefusal (table_of rows.now rules.now) code
        row.old row.new) }
{
    let (Ok(members), Ok(rules)) = (members_of(alloc, rows), rules_of(alloc, rules)) else {
        return Err(OUT_OF_MEMORY);
    };
    let table = match OwnedTable::new(members, rules) {
        Ok(table) => table,
        Err(fault) => {
            *row = fault.row;
            return Err(fault.flaw.code());
        }
    };
    let Ok(manager) = OwnedManager::open(alloc, table) else {
        return Err(OUT_OF_MEMORY);
    };
    Ok(ParamSensor {
        device: Device::new(Apart, page),
        manager,
        unsaved: Unsaved::Nothing,
    })
}

/// Ends the device and gives its memory back: 0, or 252 where the handle is closed.
#[unsafe(no_mangle)]
pub extern "C" fn iol_params_close(alloc: Global, handle: &mut IolParams) -> u8
    ensures shut { handle.new.is_open ≡ false }
    ensures closed { IsFalse handle.old.is_open → ParamsAreRefused result handle.old handle.new }
    ensures done { IsTrue handle.old.is_open → result ≡ 0 }
{
    if !handle.is_open {
        return CLOSED;
    }
    let sensor = handle.take_box(alloc);
    drop(sensor);
    0
}
