//! Which replies a device in a kept state may have sent.
ghost use Rattle.std.specs.Prelude.{◌≡◌, Ok, OnErr};
ghost use Rattle.iol_mseq.specs.Replies.{reply_in};
ghost use Rattle.iol_judge.specs.Replies.{data_fault, data_oddity, explained_as, explanation_of, explained_by, earlier_reason, explanation_with, held_against, state_after_reply, no_zeros, page_fault, page_oddity, fault_in_reply, reply_oddity};
ghost use Rattle.iol_judge.specs.Taking.{and_then, taken_by_state};

use crate::observed::{KnownLayouts, ObservedPage};
use crate::octets::{first_octet, rest_of};
use crate::open::Open;
use crate::possible::PossibleState;
use crate::reason::Reason;
use crate::taken::{Heard, TakenMessage};
use crate::verdict::Odd;
use iol_mseq::{Layout, ReplyView, view_reply};
use iol_octets::{Channel, Mc, are_zeros};

impl PossibleState {
    /// Works what was sent, and hears the reply that came: whether it explains it. Where it doesn't
    /// what is left is no state. Open, and as before, where the page's layouts would have to be
    /// known.
    pub fn explain(
        &mut self,
        layouts: &KnownLayouts,
        odd: Odd,
        observed: &ObservedPage,
        sent: &[u8],
        reply: &[u8],
    ) -> Result<Heard, Open>
        ensures value { explained_as result self.new ≡ and_then
            (taken_by_state layouts.now self.old sent.now)
            (λ taken. Ok (explanation_of odd observed.now taken reply.now)) }
        ensures open { OnErr result (self.new ≡ self.old) }
    {
        match self.work(layouts, sent)? {
            None => Ok(Heard::Refused(Reason::NotTaken)),
            Some(taken) => Ok(self.hear(odd, observed, &taken, reply)),
        }
    }

    /// Once it worked the message: whether it explains the reply.
    fn hear(
        &mut self,
        odd: Odd,
        observed: &ObservedPage,
        taken: &TakenMessage<'_>,
        octets: &[u8],
    ) -> Heard
        ensures { explanation_with result self.new ≡ explained_by odd observed.now self.old
            taken.now.layout taken.now.message
            (reply_in taken.now.layout taken.now.message.mc.read octets.now) }
    {
        let mc = taken.message.mc();
        let Ok(reply) = view_reply(&taken.layout, mc.read, octets) else {
            return Heard::Refused(Reason::ReplyLength);
        };
        let fault = fault_of(observed, self, &taken.layout, mc, &reply);
        let oddity = oddity_of(self.cycle, mc, &reply);
        match held_against(odd, fault, oddity) {
            Some(reason) => Heard::Refused(reason),
            None => {
                self.learn(mc, &reply);
                Heard::Explained(oddity)
            }
        }
    }

    /// Once its reply was had.
    fn learn(&mut self, mc: Mc, reply: &ReplyView<'_>)
        ensures { self.new ≡ state_after_reply self.old mc reply.now }
    {
        self.events.hear_flag(reply.event());
        let octet = first_octet(reply.od());
        match mc.channel {
            Channel::Page if mc.read && mc.address == 1 => self.cycle = self.cycle.or(Some(octet)),
            Channel::Diagnosis if mc.read => self.events = self.events.updated(mc.address, octet),
            Channel::Isdu if mc.read => self.transfer.hear(reply),
            _ => {}
        }
    }
}

/// What speaks against a state, of its fault and what is odd.
fn held_against(odd: Odd, fault: Option<Reason>, oddity: Option<Reason>) -> Option<Reason>
    ensures { result ≡ held_against odd fault oddity }
{
    match odd {
        Odd::Blamed => first_of(fault, oddity),
        Odd::PassedOver => fault,
    }
}

/// The one of the earlier look at the reply.
fn first_of(fault: Option<Reason>, oddity: Option<Reason>) -> Option<Reason>
    ensures { result ≡ earlier_reason fault oddity }
{
    match (fault, oddity) {
        (None, _) => oddity,
        (_, None) => fault,
        (Some(a), Some(b)) => Some(a.or_earlier(b)),
    }
}

/// Why the state can't have sent the reply, none where it can, but for what is odd.
fn fault_of(
    observed: &ObservedPage,
    state: &PossibleState,
    layout: &Layout,
    mc: Mc,
    reply: &ReplyView<'_>,
) -> Option<Reason>
    ensures { result ≡ fault_in_reply observed.now state.now layout.now mc reply.now }
{
    if reply.invalid() && layout.pd_in() == 0 {
        return Some(Reason::StatusWithoutData);
    }
    if let Some(reason) = state.events.flag_fault(reply.event()) {
        return Some(reason);
    }
    if mc.read {
        data_fault(observed, state, mc, reply)
    } else {
        None
    }
}

/// Why the on-request data can't be those of the reply to a read, but for what is odd.
fn data_fault(
    observed: &ObservedPage,
    state: &PossibleState,
    mc: Mc,
    reply: &ReplyView<'_>,
) -> Option<Reason>
    ensures { result ≡ data_fault observed.now state.now reply.now.event mc.channel mc.address
        reply.now.od.items }
{
    match mc.channel {
        Channel::Process => None,
        Channel::Page if (0x02..=0x0B).contains(&mc.address) => {
            page_fault(observed, mc.address, first_octet(reply.od()))
        }
        Channel::Page => None,
        Channel::Diagnosis => {
            let events = state.events.flag_updated(reply.event());
            events.fault(mc.address, first_octet(reply.od()))
        }
        Channel::Isdu => state.transfer.fault(reply),
    }
}

/// Why this can't be the octet of an address of the page.
fn page_fault(observed: &ObservedPage, address: u8, octet: u8) -> Option<Reason>
    ensures { result ≡ page_fault observed.now address octet }
{
    match observed.octet(address) {
        Some(known) if known != octet => Some(Reason::PageChanged),
        _ => None,
    }
}

/// What is odd in the reply of a device with this octet at page address 0x01, if anything is.
fn oddity_of(cycle: Option<u8>, mc: Mc, reply: &ReplyView<'_>) -> Option<Reason>
    ensures { result ≡ reply_oddity cycle mc reply.now }
{
    if reply.invalid() && !are_zeros(reply.input()) {
        return Some(Reason::InvalidNotZero);
    }
    if mc.read {
        data_oddity(cycle, mc, reply.od())
    } else {
        None
    }
}

/// What is odd in the on-request data of the reply to a read, if anything is.
fn data_oddity(cycle: Option<u8>, mc: Mc, od: &[u8]) -> Option<Reason>
    ensures { result ≡ data_oddity cycle mc.channel mc.address od.now }
{
    match mc.channel {
        Channel::Process => no_zeros(od, Reason::ProcessNotZero),
        Channel::Page => match page_oddity(cycle, mc.address, first_octet(od)) {
            Some(reason) => Some(reason),
            None => no_zeros(rest_of(od), Reason::RestNotZero),
        },
        Channel::Diagnosis => no_zeros(rest_of(od), Reason::RestNotZero),
        Channel::Isdu => None,
    }
}

/// Whether it is odd that a page address reads as this octet.
fn page_oddity(cycle: Option<u8>, address: u8, octet: u8) -> Option<Reason>
    ensures { result ≡ page_oddity cycle address octet }
{
    match (address, cycle) {
        (0x01, Some(known)) if known != octet => Some(Reason::CycleTime),
        (0x01..=0x0B, _) => None,
        _ if octet != 0 => Some(Reason::PageZero),
        _ => None,
    }
}

/// The reason, where the octets aren't all zeros.
fn no_zeros(octets: &[u8], reason: Reason) -> Option<Reason>
    ensures { result ≡ no_zeros octets.now reason }
{
    if are_zeros(octets) {
        None
    } else {
        Some(reason)
    }
}
