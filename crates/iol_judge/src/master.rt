//! How far a master has come, by what it sent and by the good replies that came.
ghost use Rattle.std.specs.Prelude.{◌≡◌, ◌≤◌, length, OnOk, option_copied};
ghost use Rattle.iol_judge.specs.Observed.{layouts_observed};
ghost use Rattle.iol_judge.specs.MasterPhases.{allows, allows_cycle};
ghost use Rattle.iol_judge.specs.BlameResults.{result_or_blame};
ghost use Rattle.iol_judge.specs.Watched.{asked_instead, checked_instead, checking, command_sent, cycle_sent, master_after_answer, master_without_reply, mode_entered, new_master, master_after_reply, master_after_sending, sent_in_startup, sent_new, sent_on, sent_to_page, master_after_wake};

use crate::blame::Blame;
use crate::master_message::reply_in;
use crate::master_output::Output;
use crate::master_phase::MasterPhase;
use crate::master_reading::{MasterEvents, Reading};
use crate::master_transfer::MasterTransfer;
use crate::observed::ObservedPage;
use crate::verdict::Wake;
use iol_far::{command_in, message_in};
use iol_mseq::{MasterView, Message, ReplyView, first};
use iol_octets::Channel;
use iol_page::{Layouts, MasterCommand};
use std::mem::replace;

/// The page address of MinCycleTime.
const MIN_CYCLE_TIME: u8 = 0x02;

/// The first octet of a cycle time that has a reserved time base.
const RESERVED: u8 = 192;

/// What a start-up has done.
#[derive(Clone, Copy, Debug, PartialEq, Eq)]
pub(crate) struct StartUp {
    /// MasterIdent was sent.
    pub ident: bool,
    /// MasterCycleTime was sent.
    pub cycle: bool,
}

/// A message whose last attempts had no good reply.
#[derive(Debug, Drop)]
pub(crate) struct MissedMessage {
    pub octets: Message,
    /// Whether these were two attempts, else one.
    pub twice: bool,
}

/// How far a master has come.
#[derive(Debug, Drop)]
pub(crate) struct MasterState {
    pub phase: MasterPhase,
    /// What it knows of the device's page.
    pub observed: ObservedPage,
    pub done: StartUp,
    /// The message that is to be sent again.
    pub out: Option<MissedMessage>,
    pub output: Output,
    pub events: MasterEvents,
    pub transfer: MasterTransfer,
}

impl MasterState {
    /// Of a capture that just began.
    pub fn new() -> MasterState
        ensures { result ≡ new_master }
    {
        MasterState {
            phase: MasterPhase::Down,
            observed: ObservedPage::nothing(),
            done: StartUp {
                ident: false,
                cycle: false,
            },
            out: None,
            output: Output::new(),
            events: MasterEvents::new(),
            transfer: MasterTransfer::Quiet,
        }
    }

    /// Once a wake-up request was made, by what is known of the page.
    pub fn woken(self, observed: ObservedPage, answer: Wake) -> MasterState
        ensures { result ≡ master_after_wake self observed answer }
    {
        let phase = match answer {
            Wake::Answered => MasterPhase::Startup,
            Wake::Unanswered => MasterPhase::Down,
        };
        MasterState {
            phase,
            observed,
            output: self.output.woken(),
            ..MasterState::new()
        }
    }

    /// Once it sends these octets.
    ///
    /// Refusals: each `Blame`.
    pub fn send(&mut self, octets: &[u8]) -> Result<(), Blame>
        ensures { result_or_blame result self.new ≡ master_after_sending self.old octets.now }
    {
        match (&self.phase, &self.out) {
            (MasterPhase::Down, _) => Err(Blame::WakeDue),
            (_, Some(out)) if out.octets.as_slice() == octets => {
                let transfer = replace(&mut self.transfer, MasterTransfer::Quiet);
                self.transfer = transfer.repeat();
                Ok(())
            }
            (_, Some(out)) if self.transfer.asks_instead(out.octets.as_slice(), octets) => {
                let twice = out.twice;
                self.ask_instead(octets, twice)
            }
            (_, Some(out)) if self.events.checks_instead(out.octets.as_slice(), octets) => {
                let twice = out.twice;
                self.check_instead(octets, twice)
            }
            (_, Some(_)) => Err(Blame::NotRepeated),
            (_, None) => self.send_new(octets),
        }
    }

    /// A START read in place of the message that is to be sent again: from now on it is that. The
    /// attempts are counted on.
    fn ask_instead(&mut self, octets: &[u8], twice: bool) -> Result<(), Blame>
        ensures { result_or_blame result self.new
            ≡ asked_instead twice octets.now (sent_new self.old octets.now) }
    {
        self.send_new(octets)?;
        self.transfer.doubt();
        self.out = Some(MissedMessage {
            octets: Message::try_from(octets).unwrap(),
            twice,
        });
        Ok(())
    }

    /// A read of the StatusCode in place of a confirm that is to be sent again: the same.
    fn check_instead(&mut self, octets: &[u8], twice: bool) -> Result<(), Blame>
        ensures { result_or_blame result self.new
            ≡ checked_instead twice octets.now (sent_new (checking self.old) octets.now) }
    {
        self.events = MasterEvents::flagged();
        self.send_new(octets)?;
        self.events.reading = Reading::ConfirmDue;
        self.out = Some(MissedMessage {
            octets: Message::try_from(octets).unwrap(),
            twice,
        });
        Ok(())
    }

    /// A new message. Refusals: 3 NotStartUp to 8 NotInLine.
    fn send_new(&mut self, octets: &[u8]) -> Result<(), Blame>
        ensures value { result_or_blame result self.new ≡ sent_new self.old octets.now }
        ensures length { OnOk result (length octets.now ≤ 66) }
    {
        let Some(message) = message_in(&self.phase.layout(), octets) else {
            return Err(Blame::NotWellFormed);
        };
        match self.phase {
            MasterPhase::Down | MasterPhase::Startup => self.send_in_startup(&message),
            MasterPhase::Preoperate(layouts) => self.send_on(&layouts, &message),
            MasterPhase::Operate(layouts) => {
                self.output.carry(&message)?;
                self.send_on(&layouts, &message)
            }
        }
    }

    /// Of STARTUP. Refusal 3 NotStartUp.
    fn send_in_startup(&mut self, message: &MasterView<'_>) -> Result<(), Blame>
        ensures { result_or_blame result self.new ≡ sent_in_startup self.old message.now }
    {
        if message.mc().channel == Channel::Page {
            self.send_to_page(message)
        } else {
            Err(Blame::NotStartUp)
        }
    }

    /// Of PREOPERATE or OPERATE. Refusals: 3 NotStartUp, 6 NotDue to 8 NotInLine.
    fn send_on(&mut self, layouts: &Layouts, message: &MasterView<'_>) -> Result<(), Blame>
        ensures { result_or_blame result self.new ≡ sent_on self.old layouts.now message.now }
    {
        let mc = message.mc();
        match mc.channel {
            Channel::Process => Ok(()),
            Channel::Page => self.send_to_page(message),
            Channel::Diagnosis if self.events.is_due(mc.read, mc.address) => Ok(()),
            Channel::Diagnosis => Err(Blame::NotDue),
            Channel::Isdu => self.transfer.send(layouts.isdu, message),
        }
    }

    /// On the page channel. Refusal 3 NotStartUp.
    fn send_to_page(&mut self, message: &MasterView<'_>) -> Result<(), Blame>
        ensures { result_or_blame result self.new ≡ sent_to_page self.old message.now }
    {
        let mc = message.mc();
        match (mc.read, mc.address) {
            (false, 0) => self.send_command(command_in(message)),
            (false, 1) => self.send_cycle(first(message.od())),
            _ => Ok(()),
        }
    }

    /// A master command, or an octet that is none.
    fn send_command(&mut self, command: Option<MasterCommand>) -> Result<(), Blame>
        ensures { result_or_blame result self.new ≡ command_sent self.old command }
    {
        if !self.allows(command) {
            return Err(Blame::NotStartUp);
        }
        if command == Some(MasterCommand::MasterIdent) {
            self.done.ident = true;
        }
        Ok(())
    }

    /// MasterCycleTime.
    fn send_cycle(&mut self, octet: u8) -> Result<(), Blame>
        ensures { result_or_blame result self.new ≡ cycle_sent self.old octet }
    {
        if !allows_cycle(self.observed.octet(MIN_CYCLE_TIME), octet) {
            return Err(Blame::NotStartUp);
        }
        self.done.cycle = true;
        Ok(())
    }

    /// Whether a new master command is allowed.
    fn allows(&self, command: Option<MasterCommand>) -> bool
        ensures { result ≡ allows self.now.phase (layouts_observed self.now.observed) self.now.done
            command }
    {
        let asked = self.observed.layouts();
        match (&self.phase, command) {
            (MasterPhase::Startup, Some(MasterCommand::MasterIdent | MasterCommand::DeviceIdent)) =>
                true,
            (MasterPhase::Startup, Some(MasterCommand::DeviceStartup)) => true,
            (MasterPhase::Startup, Some(MasterCommand::DevicePreoperate)) => {
                self.done.ident && matches!(asked, Ok(layouts) if layouts.pre.is_some())
            }
            (MasterPhase::Startup, Some(MasterCommand::DeviceOperate)) => {
                self.done.cycle && matches!(asked, Ok(layouts) if layouts.pre.is_none())
            }
            (MasterPhase::Preoperate(_), Some(MasterCommand::DeviceOperate)) => self.done.cycle,
            (MasterPhase::Operate(_), Some(MasterCommand::ProcessDataOutputOperate)) => true,
            (MasterPhase::Operate(_), Some(MasterCommand::DeviceOperate)) => true,
            _ => false,
        }
    }

    /// Once this came in the time of a reply to what was sent, if anything did.
    pub fn hear(&mut self, sent: &[u8], answer: Option<&[u8]>)
        ensures { self.new ≡ master_after_answer self.old sent.now (option_copied answer.entry) }
    {
        let layout = self.phase.layout();
        let Some(message) = message_in(&layout, sent) else {
            return;
        };
        match reply_in(&layout, message.mc().read, answer) {
            Some(reply) => self.take(&message, &reply),
            None => self.miss(sent),
        }
    }

    /// Without a good reply.
    fn miss(&mut self, sent: &[u8])
        requires { length sent.now ≤ 66 }
        ensures { self.new ≡ master_without_reply self.old sent.now }
    {
        let twice = match &self.out {
            None => false,
            Some(out) if !out.twice => true,
            Some(_) => {
                self.phase = MasterPhase::Down;
                self.out = None;
                return;
            }
        };
        self.out = Some(MissedMessage {
            octets: Message::try_from(sent).unwrap(),
            twice,
        });
    }

    /// With one.
    fn take(&mut self, message: &MasterView<'_>, reply: &ReplyView<'_>)
        ensures { self.new ≡ master_after_reply self.old message.now reply.now }
    {
        let mc = message.mc();
        self.out = None;
        self.events.flag = reply.event();
        match mc.channel {
            Channel::Process => {}
            Channel::Page if mc.read => self.observed.note(mc.address, first(reply.od())),
            Channel::Page => self.enter(command_in(message)),
            Channel::Diagnosis => self.events.go_on(mc.read, first(reply.od())),
            Channel::Isdu if mc.read => self.transfer.hear(reply),
            Channel::Isdu => {}
        }
    }

    /// Once the good reply to a write to the page came: another mode drops the transfer.
    fn enter(&mut self, command: Option<MasterCommand>)
        ensures { self.new ≡ mode_entered self.old command }
    {
        let layouts = self.observed.layouts();
        if command.is_some() && !self.phase.in_operate() {
            self.transfer = MasterTransfer::Quiet;
        }
        self.phase = self.phase.entered(layouts, command);
    }
}

/// Whether MasterCycleTime may be this octet, by MinCycleTime, where that is known.
fn allows_cycle(least: Option<u8>, octet: u8) -> bool
    ensures { result ≡ allows_cycle least octet }
{
    match least {
        Some(least) => octet == least || (least < octet && octet < RESERVED),
        None => false,
    }
}
