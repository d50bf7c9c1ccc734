//! The lines of a device alone.
ghost use Rattle.std.specs.Prelude.{◌≤◌};

use crate::events::event;
use crate::pages::{page_of, print_page_fault};
use crate::printing::{
    print_named, print_octets, print_ok, print_pair, print_refused, print_request,
};
use crate::reading::{Bytes, Line, is};
use iol_device::{Apart, App, Carried, Device, DeviceFault, NoRecord, Record};
use iol_event::Event;
use iol_image::Image;
use iol_isdu::Request;
use iol_mseq::Message;
use iol_page::Page;
use iol_sim::Params;
use std::alloc::{AllocError, Global};
use std::mem;

/// A device, where one is there.
#[derive(Drop)]
enum Held {
    Nothing,
    /// Its application has parameters.
    Store(Device<Params>),
    /// The same, which keeps no record in memory.
    Bare(Device<Params, NoRecord>),
    /// Its answers come from the lines.
    Apart(Device<Apart>),
}

/// A device, and the parameters of the next one.
#[derive(Drop)]
pub(crate) struct Devices {
    alloc: Global,
    held: Held,
    params: Params,
}

impl Devices {
    pub fn new(alloc: Global) -> Devices {
        Devices {
            alloc,
            held: Held::Nothing,
            params: Params::new(),
        }
    }

    /// A line of a device, behind `device`.
    pub fn answer(&mut self, output: &mut String, line: &mut Line<'_>) -> Result<(), AllocError> {
        let name = line.word();
        if is(name, b"param") {
            add(output, &mut self.params, line)
        } else if is(name, b"open") {
            self.open(output, line)
        } else if is(name, b"bare") {
            self.open_bare(output, line)
        } else if is(name, b"apart") {
            self.open_apart(output, line)
        } else if is(name, b"record") {
            self.print_record(output, line)
        } else if is(name, b"answer") {
            self.take_answer(output, line)
        } else {
            self.call(output, name, line)
        }
    }

    /// A room and a page: a device with the parameters so far, which are gone then.
    fn open(&mut self, output: &mut String, line: &mut Line<'_>) -> Result<(), AllocError> {
        let room = room(line);
        let page = page_of(line);
        if let Err(fault) = page.layouts() {
            return print_page_fault(output, &fault);
        }
        let params = mem::replace(&mut self.params, Params::new());
        let Ok(device) = Device::open(self.alloc, params, page, room) else {
            return Err(AllocError);
        };
        self.held = Held::Store(device);
        print_ok(output)
    }

    /// A page: a device with the parameters so far, which keeps no record in memory.
    fn open_bare(&mut self, output: &mut String, line: &mut Line<'_>) -> Result<(), AllocError> {
        let page = page_of(line);
        if let Err(fault) = page.layouts() {
            return print_page_fault(output, &fault);
        }
        let params = mem::replace(&mut self.params, Params::new());
        self.held = Held::Bare(Device::new(params, page));
        print_ok(output)
    }

    /// A room and a page: a device whose answers come from the lines.
    fn open_apart(&mut self, output: &mut String, line: &mut Line<'_>) -> Result<(), AllocError> {
        let room = room(line);
        let page = page_of(line);
        if let Err(fault) = page.layouts() {
            return print_page_fault(output, &fault);
        }
        let Ok(device) = Device::open(self.alloc, Apart, page, room) else {
            return Err(AllocError);
        };
        self.held = Held::Apart(device);
        print_ok(output)
    }

    /// A number, and the answer to the request that is handed over under it.
    fn take_answer(&mut self, output: &mut String, line: &mut Line<'_>) -> Result<(), AllocError> {
        let Held::Apart(device) = &mut self.held else {
            line.refuse();
            return Ok(());
        };
        let number = line.number(u64::MAX);
        print_done(output, device.answer(number, line.answer()))
    }

    fn print_record(&self, output: &mut String, line: &mut Line<'_>) -> Result<(), AllocError> {
        match &self.held {
            Held::Nothing | Held::Bare(_) => {
                line.refuse();
                Ok(())
            }
            Held::Store(device) => print_record(output, device.carried()),
            Held::Apart(device) => print_record(output, device.carried()),
        }
    }

    fn call(
        &mut self,
        output: &mut String,
        name: &[u8],
        line: &mut Line<'_>,
    ) -> Result<(), AllocError> {
        match &mut self.held {
            Held::Nothing => {
                line.refuse();
                Ok(())
            }
            Held::Store(device) => answer_call(output, device, name, line),
            Held::Bare(device) => answer_call(output, device, name, line),
            Held::Apart(device) => answer_call(output, device, name, line),
        }
    }
}

/// How many requests the record has room for.
fn room(line: &mut Line<'_>) -> u32
    ensures some { 1 ≤ result }
    ensures most { result ≤ 100000 }
{
    line.between(1, 100_000) as u32
}

/// A place, whether it may be written, and its octets, of which there may be too many.
fn add(output: &mut String, params: &mut Params, line: &mut Line<'_>) -> Result<(), AllocError> {
    let place = line.place();
    let writable = writable(line);
    let octets: Bytes = line.packed();
    match params.add(place, writable, octets.as_slice()) {
        Ok(()) => print_ok(output),
        Err(fault) => print_refused(output, fault.code(), &fault),
    }
}

/// `ro` or `rw`.
fn writable(line: &mut Line<'_>) -> bool {
    let name = line.word();
    let is_writable = is(name, b"rw");
    if !is_writable && !is(name, b"ro") {
        line.refuse();
    }
    is_writable
}

/// The lines that any device understands.
fn answer_call<P: App, R: Record>(
    output: &mut String,
    device: &mut Device<P, R>,
    name: &[u8],
    line: &mut Line<'_>,
) -> Result<(), AllocError> {
    if is(name, b"hear") {
        print_reply(output, device.hear(line.octets().as_slice()))
    } else if is(name, b"raise") {
        print_done(output, device.raise(event(line)))
    } else if is(name, b"input") {
        set_input(output, device, line.octets().as_slice())
    } else if is(name, b"handed") {
        print_handed(output, device.handed_number(), device.handed())
    } else if is(name, b"output") {
        print_image(output, "output", device.output())
    } else if is(name, b"page") {
        print_named(output, "page", device.page())
    } else if is(name, b"mode") {
        print_mode(output, device)
    } else if is(name, b"pulses") {
        print_pulses(output, device)
    } else if is(name, b"cycle") {
        print_named(output, "cycle", &[device.cycle_time()])
    } else {
        act(device, name, line);
        print_ok(output)
    }
}

/// The lines of one word that change something.
fn act<P: App, R: Record>(device: &mut Device<P, R>, name: &[u8], line: &mut Line<'_>) {
    if is(name, b"wake") {
        device.wake();
    } else if is(name, b"work") {
        device.work();
    } else if is(name, b"power") {
        device.power_cycle();
    } else if is(name, b"clear") {
        device.clear_input();
    } else if is(name, b"silence") {
        device.silence();
    } else if is(name, b"miss") {
        device.may_miss_pulses();
    } else {
        line.refuse();
    }
}

fn set_input<P: App, R: Record>(
    output: &mut String,
    device: &mut Device<P, R>,
    octets: &[u8],
) -> Result<(), AllocError> {
    match Image::new(octets) {
        Ok(image) => print_done(output, device.set_input(&image)),
        Err(fault) => print_refused(output, fault.code(), &fault),
    }
}

fn print_done(output: &mut String, done: Result<(), DeviceFault>) -> Result<(), AllocError> {
    match done {
        Ok(()) => print_ok(output),
        Err(fault) => print_refused(output, fault.code(), &fault),
    }
}

fn print_reply(output: &mut String, reply: Option<Message>) -> Result<(), AllocError> {
    match reply {
        Some(octets) => print_named(output, "reply", octets.as_slice()),
        None => output.push_str("reply none\n"),
    }
}

/// The mode, and whether the master counts as silent.
fn print_mode<P: App, R: Record>(
    output: &mut String,
    device: &Device<P, R>,
) -> Result<(), AllocError> {
    if device.is_awake() {
        let mode = device.mode();
        write!(output, "mode {mode:?}")?;
    } else {
        output.push_str("mode asleep")?;
    }
    if device.is_silent() {
        output.push_str(" silent")?;
    }
    output.push_str("\n")
}

/// Whether it misses pulses, and is as a device is that may.
fn print_pulses<P: App, R: Record>(
    output: &mut String,
    device: &Device<P, R>,
) -> Result<(), AllocError> {
    output.push_str(if device.misses_pulses() {
        "pulses missed"
    } else {
        "pulses seen"
    })?;
    if device.is_orderly() {
        output.push_str(" orderly")?;
    }
    output.push_str("\n")
}

/// The request that is handed over, behind its number.
fn print_handed(
    output: &mut String,
    number: Option<u64>,
    handed: Option<&Request>,
) -> Result<(), AllocError> {
    output.push_str("handed")?;
    match (number, handed) {
        (Some(number), Some(request)) => {
            write!(output, " {number}")?;
            print_request(output, request)?;
        }
        _ => output.push_str(" none")?,
    }
    output.push_str("\n")
}

/// A name and the octets of an image, or that there is none.
pub(crate) fn print_image(
    output: &mut String,
    name: &str,
    image: Option<&Image>,
) -> Result<(), AllocError> {
    output.push_str(name)?;
    match image {
        Some(image) => print_octets(output, image.octets())?,
        None => output.push_str(" none")?,
    }
    output.push_str("\n")
}

/// How many requests were carried out, and each of them with its answer.
fn print_record(output: &mut String, carried: &[Carried]) -> Result<(), AllocError> {
    let count = carried.len();
    write!(output, "record {count}")?;
    for Carried { request, answer } in carried {
        output.push_str(";")?;
        print_pair(output, request, answer)?;
    }
    output.push_str("\n")
}
