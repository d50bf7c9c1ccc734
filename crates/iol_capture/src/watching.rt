//! A watch of the master's side, told the calls that a judge is told.
ghost use Rattle.std.specs.Prelude.{◌≡◌, true, option_copied};
ghost use Rattle.iol_capture.specs.Watching.{asks_mode, exchange_watched, watching_after_exchange, is_blamed, watching_unheard, new_watching, page_watched, read_or_woken, wake_watched};

use iol_judge::{MasterVerdict, Wake, Watch};
use std::marker::Model;

/// The control octet of a write to page address 0x00.
const PAGE_COMMAND: u8 = 0x20;

const DEVICE_OPERATE: u8 = 0x99;

const DEVICE_PREOPERATE: u8 = 0x9A;

/// A watch of the master's side, and where a wake-up request may be that isn't shown.
#[derive(Drop)]
pub(crate) struct CallWatch {
    watch: Watch,
    /// The call of the exchange told last: that of the fault, where there is one.
    pub(crate) call: u64,
    /// Whether a command into another mode was sent since the last wake-up request.
    asked: bool,
    /// Whether the next exchange may be the test read of a wake-up request that isn't shown.
    tests: bool,
    /// The first call since then that may be one, though the device had left STARTUP.
    pub(crate) unsure: Option<u64>,
    /// The first call since then behind octets that were passed over.
    pub(crate) unheard: Option<u64>,
}

impl Model for CallWatch {
    ghost use Rattle.iol_capture.specs.Watching.{Watching};

    ghost Value = { Watching };

    ghost view = { λ w. record {
      watched = w.watch;
      call = w.call;
      asked = w.asked;
      tests = w.tests;
      unsure = w.unsure;
      unheard = w.unheard;
    } };
}

impl CallWatch {
    /// Nothing was told.
    pub fn new() -> CallWatch
        ensures { result ≡ new_watching }
    {
        CallWatch {
            watch: Watch::new(),
            call: 0,
            asked: false,
            tests: false,
            unsure: None,
            unheard: None,
        }
    }

    /// What the watch says of the master.
    pub fn verdict(&self) -> MasterVerdict
        ensures { result ≡ self.now.watched.verdict }
    {
        self.watch.verdict()
    }

    /// Whether the master is blamed, and no doubt is left of its mode.
    pub fn is_surely_blamed(&self) -> bool
        ensures { result ≡ is_surely_blamed self.now }
    {
        self.is_blamed() && self.unsure.is_none() && self.unheard.is_none()
    }

    ghost use Rattle.iol_capture.specs.Findings.{is_surely_blamed};

    /// Whether the master's first fault was met.
    fn is_blamed(&self) -> bool
        ensures { result ≡ is_blamed self.now.watched.verdict }
    {
        matches!(self.verdict(), MasterVerdict::NotByTheRules(..))
    }

    /// The device has this page.
    pub fn page(&mut self, octets: &[u8; 10])
        ensures { self.new ≡ page_watched self.old octets.now }
    {
        self.watch.page(octets);
    }

    /// A wake-up request was made.
    pub fn wake(&mut self, answer: Wake)
        ensures { self.new ≡ wake_watched self.old answer }
    {
        if self.is_blamed() {
            return;
        }
        self.watch.wake(answer);
        self.asked = false;
        self.tests = false;
        self.unsure = None;
        self.unheard = None;
    }

    /// Behind octets that were passed over this call is next.
    pub fn miss(&mut self, call: u64)
        ensures { self.new ≡ watching_unheard self.old call }
    {
        if !self.is_blamed() && self.unheard.is_none() {
            self.unheard = Some(call);
        }
    }

    /// The next exchange may be the test read of a wake-up request that isn't shown.
    pub fn expect_test_read(&mut self)
        ensures { self.new ≡ record self.old { tests = true } }
    {
        self.tests = true;
    }

    /// An exchange was made in this call.
    pub fn exchange(&mut self, call: u64, sent: &[u8], received: Option<&[u8]>)
        ensures { self.new
            ≡ exchange_watched self.old call sent.now (option_copied received.entry) }
    {
        if self.is_blamed() {
            return;
        }
        if self.tests {
            self.read_or_wake(call, sent, received);
        } else {
            self.follow(call, sent, received);
        }
    }

    /// An exchange was made.
    fn follow(&mut self, call: u64, sent: &[u8], received: Option<&[u8]>)
        ensures { self.new
            ≡ watching_after_exchange self.old call sent.now (option_copied received.entry) }
    {
        self.watch.exchange(sent, received);
        self.call = call;
        self.asked = self.asked || asks_mode(sent);
    }

    /// An exchange was made that is a read, or the test read of a wake-up request.
    fn read_or_wake(&mut self, call: u64, sent: &[u8], received: Option<&[u8]>)
        ensures { self.new ≡ read_or_woken self.old call sent.now (option_copied received.entry) }
    {
        self.tests = false;
        self.follow(call, sent, received);
        if self.is_blamed() {
            *self = CallWatch::new();
            self.wake(Wake::Answered);
            self.follow(call, sent, received);
        } else if self.asked && self.unsure.is_none() {
            self.unsure = Some(call);
        }
    }
}

/// Whether octets are a write of DeviceOperate or DevicePreoperate in STARTUP.
fn asks_mode(sent: &[u8]) -> bool
    ensures { result ≡ asks_mode sent.now }
{
    matches!(
        sent,
        [PAGE_COMMAND, _, DEVICE_OPERATE | DEVICE_PREOPERATE, ..]
    )
}
