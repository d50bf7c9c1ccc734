//! What is kept of a device.
ghost use Rattle.std.specs.Prelude.{◌≡◌, ◌≤◌, ◌+◌, ◌++◌, None, Some, Option, slice_index};
ghost use Rattle.arrayvec.specs.ArrayVec.{array_vec_len};
ghost use Rattle.iol_octets.specs.Control.{control_of};
ghost use Rattle.iol_judge.specs.State.{all_parts, first_state, is_command, parts_of, resumed_state, startup_state, state_of_kind, tells_apart};

use crate::events::{ShownEvents, is_known_in};
use crate::kinds::Kinds;
use crate::octets::first_octet;
use crate::partial::PartialAnswer;
use crate::transfer::Transfer;
use arrayvec::ArrayVec;
use iol_far::{DeviceMode, HandsOver, Kind, ModeCommand, Recalls};
use iol_octets::{Channel, Mc};
use std::marker::Model;

/// What one state stands for, told apart by kinds: of each kind two at most.
pub(crate) type Parts = ArrayVec<PossibleState, 8>;

/// A state of a device that the exchanges so far admit.
#[derive(Debug, Drop)]
pub(crate) struct PossibleState {
    /// Which kinds of device it stands for.
    pub kinds: Kinds,
    pub mode: DeviceMode,
    pub waits: Option<ModeCommand>,
    /// The octet of page address 0x01, where it is known.
    pub cycle: Option<u8>,
    pub events: ShownEvents,
    pub transfer: Transfer,
}

impl Model for PossibleState {
    ghost use Rattle.iol_judge.specs.State.{KnownState};

    ghost Value = { KnownState };

    ghost view = { λ k. record {
      kinds = k.kinds;
      link = record { mode = k.mode; waits = k.waits };
      cycle = k.cycle;
      events = k.events;
      transfer = k.transfer;
    } };

    ghost inverse = { λ s. record {
      kinds = s.kinds;
      mode = s.link.mode;
      waits = s.link.waits;
      cycle = s.cycle;
      events = s.events;
      transfer = s.transfer;
    } };
}

impl Default for PossibleState {
    fn default() -> PossibleState {
        PossibleState::first()
    }
}

impl PossibleState {
    ghost use Rattle.std.specs.Option.{option_eq};
    ghost use Rattle.iol_judge.specs.State.{are_alike, covers, covers_alike, powered_state, woken_state};

    /// A device of any kind right after the first answered wake-up request.
    pub fn first() -> PossibleState
        ensures { result ≡ first_state }
    {
        PossibleState::started(Kinds::all(), None, ShownEvents::Any)
    }

    /// An awake device of any kind in this mode, with these events, of which nothing else is known
    /// but that no mode command waits.
    pub fn resumed(mode: DeviceMode, events: ShownEvents) -> PossibleState
        ensures { result ≡ resumed_state mode events }
    {
        PossibleState {
            kinds: Kinds::all(),
            mode,
            waits: None,
            cycle: None,
            events,
            transfer: Transfer::Free,
        }
    }

    fn started(kinds: Kinds, cycle: Option<u8>, events: ShownEvents) -> PossibleState
        ensures { result ≡ startup_state kinds cycle events }
    {
        PossibleState {
            kinds,
            mode: DeviceMode::Startup,
            waits: None,
            cycle,
            events,
            transfer: Transfer::Quiet,
        }
    }

    /// The state after a wake-up request, of a device that was awake.
    pub fn woken(&self) -> PossibleState
        ensures { result ≡ woken_state self.now }
    {
        PossibleState::started(self.kinds, self.cycle, self.events.after(false))
    }

    /// The state after a wake-up request, of a device that had a power cycle.
    pub fn powered(&self) -> PossibleState
        ensures { result ≡ powered_state self.now }
    {
        PossibleState::started(self.kinds, self.cycle, ShownEvents::Fresh)
    }

    pub fn copy(&self) -> PossibleState
        ensures { result ≡ self.now }
    {
        PossibleState {
            kinds: self.kinds,
            mode: self.mode,
            waits: self.waits_copy(),
            cycle: self.cycle,
            events: self.events,
            transfer: self.transfer.copy(),
        }
    }

    /// The same of one kind, with this transfer.
    fn of(&self, kind: Kind, transfer: Transfer) -> PossibleState
        ensures { result ≡ state_of_kind self.now kind transfer }
    {
        PossibleState {
            kinds: Kinds::only(kind),
            mode: self.mode,
            waits: self.waits_copy(),
            cycle: self.cycle,
            events: self.events,
            transfer,
        }
    }

    /// Whether devices that it stands for may do different things on these octets, by their kind.
    pub fn tells_apart(&self, sent: &[u8]) -> bool
        ensures { result ≡ tells_apart self.now (control_of (slice_index sent.now 0)) }
    {
        let mc = Mc::from_octet(first_octet(sent));
        mc.channel == Channel::Isdu && self.transfer.is_apart(mc)
    }

    /// States that stand for what it does, each for one kind and one of the transfers.
    pub fn parts(&self) -> Parts
        ensures { result.items ≡ all_parts self.now }
    {
        let mut parts = Parts::new();
        self.add_parts(HandsOver::FirstRead, Recalls::UntilLeft, &mut parts);
        self.add_parts(HandsOver::FirstRead, Recalls::UntilSent, &mut parts);
        self.add_parts(HandsOver::LastSegment, Recalls::UntilLeft, &mut parts);
        self.add_parts(HandsOver::LastSegment, Recalls::UntilSent, &mut parts);
        parts
    }

    /// Those of one kind, where it is one of its kinds.
    fn add_parts(&self, hands_over: HandsOver, recalls: Recalls, parts: &mut Parts)
        requires { array_vec_len parts.old ≤ 6 }
        ensures parts { parts.new.items ≡ parts.old.items
            ++ parts_of self.now (record { hands_over = hands_over; recalls = recalls }) }
        ensures room { array_vec_len parts.new ≤ array_vec_len parts.old + 2 }
    {
        let kind = Kind {
            hands_over,
            recalls,
        };
        if !self.kinds.has(kind) {
            return;
        }
        match &self.transfer {
            Transfer::Asked(read, last) => {
                parts.push(self.of(kind, Transfer::Handed(*read, *last)));
                parts.push(self.of(kind, Transfer::Answered(PartialAnswer::none(*read))));
            }
            transfer => parts.push(self.of(kind, transfer.copy())),
        }
    }

    fn waits_copy(&self) -> Option<ModeCommand>
        ensures { result ≡ self.now.link.waits }
    {
        match &self.waits {
            Some(command) => Some(command.copy()),
            None => None,
        }
    }

    /// Whether it stands for each device that the other does.
    pub fn covers(&self, other: &PossibleState) -> bool
        ensures { result ≡ covers self.now other.now }
    {
        other.kinds.are_within(&self.kinds) && self.covers_alike(other)
    }

    /// Whether both stand for the same devices, but for their kinds.
    pub fn is_alike(&self, other: &PossibleState) -> bool
        ensures { result ≡ are_alike self.now other.now }
    {
        self.covers_alike(other) && other.covers_alike(self)
    }

    /// Whether it does, of devices of the same kind.
    fn covers_alike(&self, other: &PossibleState) -> bool
        ensures { result ≡ covers_alike self.now other.now }
    {
        self.mode == other.mode
            && is_known_in(&self.cycle, &other.cycle)
            && self.waits_as(other)
            && self.events.covers(&other.events)
            && self.transfer.covers(&other.transfer)
    }

    fn waits_as(&self, other: &PossibleState) -> bool
        ensures { result ≡ option_eq is_command self.now.link.waits other.now.link.waits }
    {
        match (&self.waits, &other.waits) {
            (None, None) => true,
            (Some(a), Some(b)) => is_command(a, b),
            _ => false,
        }
    }
}

fn is_command(a: &ModeCommand, b: &ModeCommand) -> bool
    ensures { result ≡ is_command a.now b.now }
{
    a.into == b.into && a.octets.as_slice() == b.octets.as_slice()
}
