//! What a device is without its application.
ghost use Rattle.std.specs.Prelude.{◌≡◌, true, ◌+◌, ◌-◌, ◌<◌, ◌≤◌, ◌↔◌, ◌==◌, ◌++◌, length, slice_index, Option, Some, None, IsTrue, IsErr, IfErr, OnErr, option_copied, option_map, IfNone, OnSome, false, is_some, IsOk, unwrap_or, if◌then◌else◌, []};
ghost use Rattle.iol_far.specs.Codec.{flow_of};
ghost use Rattle.iol_device.specs.Number.{is_start_write};
ghost use Rattle.iol_device.specs.Pulses.{is_that};
ghost use Rattle.iol_device.specs.Awaited.{whole_length};

use crate::app::App;
use crate::data::{copy_of, message_of, take_image};
use crate::fault::DeviceFault;
use crate::isdu::{IsduSide, is_kind_of};
use crate::record::{FullRecord, NoRecord, Record};
use iol_event::{Event, EventMemory};
use iol_far::{
    Carried, DeviceMode, Kind, ModeCommand, command_in, flow_of, is_confirm, message_in, mode_asked,
};
use iol_image::Image;
use iol_isdu::{Answer, Request};
use iol_mseq::{
    Layout, MasterView, Message, append, append_first, append_zeros, close_reply, first,
};
use iol_octets::{Channel, Flow, Mc, OdLength};
use iol_page::{Layouts, MasterCommand, Page, pages_ask_for_layouts};
use std::alloc::Allocator;
use std::marker::Model;

/// The first octet of a message that reads is at least this (IEC 61131-9, A.1.2).
const READ: u8 = 0x80;

/// The far end of the line.
#[derive(Drop)]
pub(crate) struct FarEnd<R: Record = FullRecord> {
    awake: bool,
    mode: DeviceMode,
    waits: Option<ModeCommand>,
    isdu: IsduSide,
    events: EventMemory,
    input: Option<Image>,
    out: Option<Image>,
    valid: bool,
    page: Page,
    layouts: Layouts,
    /// The layout of the mode.
    layout: Layout,
    /// The octet of page address 0x01.
    cycle_time: u8,
    misses_pulses: bool,
    carried: R,
    /// Its history.
    past: NoRecord,
}

impl<R: Record> Model for FarEnd<R> {
    ghost use Rattle.std.specs.Prelude.{[], false, option_map, unwrap_or};
    ghost use Rattle.iol_far.specs.Far.{Far};
    ghost use Rattle.iol_device.specs.Inside.{IsSound};

    ghost Value = { Far };

    ghost view = { λ d. record {
      awake = d.awake;
      mode = d.mode;
      waits = d.waits;
      isdu = d.isdu.state;
      kind = d.isdu.kind;
      counted = d.isdu.counted;
      misses_pulses = d.misses_pulses;
      events = d.events;
      input = d.input;
      out = unwrap_or d.out [];
      valid = d.valid;
      page = d.page;
      cycle_time = d.cycle_time;
      carried = R.carried d.carried;
      room = R.room d.carried;
      history = d.past.noted.history;
    } };

    ghost invariant = { λ d. IsSound d.page d.mode d.layouts d.layout d.isdu.size d.input d.out };
}

impl<R: Record> FarEnd<R> {
    ghost use Rattle.iol_page.specs.Page.{layouts_of, knows_isdu};
    ghost use Rattle.iol_event.specs.Memory.{is_full};
    ghost use Rattle.iol_far.specs.Codec.{layout_in, message_in, flow_of};
    ghost use Rattle.iol_far.specs.Far as far;
    ghost use Rattle.iol_far.specs.Far.{layout_of, far_in_mode};
    ghost use Rattle.iol_far.specs.Isdu.{handed_request};
    ghost use Rattle.iol_far.specs.Local.{local, far_after_wake, is_input, has_room, LocalStep};
    ghost use Rattle.iol_device.specs.App.{IsCarriedOut};
    ghost use Rattle.iol_device.specs.Number.{keeps_handed, misfit, number_after};
    ghost use Rattle.iol_device.specs.Silence.{says_valid, silent_after};
    ghost use Rattle.std.specs.Result.{result_err};
    ghost use Rattle.iol_device.specs.Inside.{new_mode};
    ghost use Rattle.iol_device.specs.Awaited.{awaited_length, length_behind};
    ghost use Rattle.iol_far.specs.Octets.{octets_in_buffer};
    ghost use Rattle.iol_far.specs.Laws.{IsRegular};
    ghost use Rattle.iol_far.specs.Orderly.{IsOrderly};
    ghost use Rattle.iol_device.specs.Pulses.{is_orderly, is_asked, is_asked_if, asks_for};
    ghost use Rattle.iol_device.specs.declared.fault.DeviceFault.{DeviceFault};

    /// Asleep, as a device is delivered.
    #[inline(never)]
    pub fn open(carried: R, kind: Kind, page: Page) -> FarEnd<R>
        requires page { IsOk (layouts_of page) }
        requires empty { R.carried carried ≡ [] }
        ensures { result ≡ far.opened_as kind page (R.room carried) }
    {
        pages_ask_for_layouts();
        let layouts = page.layouts().unwrap();
        let layout = Layout::startup();
        FarEnd {
            awake: false,
            mode: DeviceMode::Startup,
            waits: None,
            isdu: IsduSide::new(kind, layout.od()),
            events: EventMemory::new(),
            input: None,
            out: None,
            valid: false,
            page,
            layouts,
            layout,
            cycle_time: 0,
            misses_pulses: false,
            carried,
            past: NoRecord::new(),
        }
    }

    /// It may miss the pulse of a wake-up request.
    pub fn may_miss_pulses(&mut self)
        ensures { self.new ≡ record self.old { misses_pulses = true } }
    {
        self.misses_pulses = true;
    }

    /// Whether it may miss the pulse of a wake-up request.
    pub fn misses_pulses(&self) -> bool
        ensures { result ≡ self.now.misses_pulses }
    {
        self.misses_pulses
    }

    /// Whether it is as a device is that may miss pulses.
    #[tactic(auto, using(crate::proofs::Orderly::orderly))]
    pub fn is_orderly(&self) -> bool
        ensures value { result ≡ is_orderly self.now }
        ensures orderly { result ≡ true → IsOrderly self.now }
    {
        let holds_text = self.mode == DeviceMode::Startup && !self.isdu.is_empty();
        let is_valid = self.valid && self.mode != DeviceMode::Operate;
        !holds_text && !is_valid && self.is_asked_if_it_waits()
    }

    /// Whether each command that waits asks for another mode.
    fn is_asked_if_it_waits(&self) -> bool
        ensures { result ≡ is_asked_if self.now self.now.waits }
    {
        match &self.waits {
            Some(command) => self.is_asked(command),
            None => true,
        }
    }

    /// Whether a command that waits asks for another mode, as its octets say.
    fn is_asked(&self, command: &ModeCommand) -> bool
        ensures { result ≡ is_asked self.now command.now }
    {
        command.into != self.mode && self.asks_for(command.into, &command.octets)
    }

    /// Whether octets, where they are a message in the present layout, ask for that mode.
    fn asks_for(&self, into: DeviceMode, octets: &[u8]) -> bool
        ensures { result ≡ asks_for self.now into (message_in (layout_of self.now) octets.now) }
    {
        match message_in(&self.layout, octets) {
            Some(message) => is_that(self.known_mode(mode_asked(command_in(&message))), into),
            None => true,
        }
    }

    /// The layout of a mode.
    fn layout_in(&self, mode: DeviceMode) -> Layout
        ensures { result ≡ layout_in self.now.page mode }
    {
        match mode {
            DeviceMode::Startup => Layout::startup(),
            DeviceMode::Preoperate => self.layouts.pre.unwrap_or(Layout::startup()),
            DeviceMode::Operate => self.layouts.run,
        }
    }

    /// The mode into which the octets would take it.
    ///
    /// Rule DEV-4.
    fn new_mode(&self, octets: &[u8]) -> Option<DeviceMode>
        ensures { result ≡ new_mode self.now.waits octets.now }
    {
        match &self.waits {
            Some(command) if octets != command.octets.as_slice() => Some(command.into),
            _ => None,
        }
    }

    /// Takes the layout of a mode.
    ///
    /// Rule DEV-3.
    fn move_into(&mut self, mode: DeviceMode)
        ensures { self.new ≡ far_in_mode self.old mode }
    {
        let layout = self.layout_in(mode);
        self.mode = mode;
        self.layout = layout;
        self.waits = None;
        self.isdu.resize(layout.od());
        self.valid = false;
    }

    /// The message that the octets are, once it is in the layout in which it accepts them.
    ///
    /// Rule DEV-2.
    fn accept<'a>(&mut self, octets: &'a [u8]) -> Option<MasterView<'a>>
        ensures length { OnSome result (length octets.now ≤ 66) }
        ensures accepts { far.accepted_message self.old octets.now
            ≡ option_map (λ m. (self.new, m)) result }
        ensures none { IfNone result (self.new ≡ self.old) }
    {
        if !self.awake {
            return None;
        }
        match self.new_mode(octets) {
            None => message_in(&self.layout, octets),
            Some(into) => {
                let message = message_in(&self.layout_in(into), octets)?;
                self.move_into(into);
                Some(message)
            }
        }
    }

    /// How many octets the message has that begins with these: 1 where none came yet, 0 asleep.
    pub fn awaited_length(&self, begun: &[u8]) -> u8
        ensures { result ≡ awaited_length self.now begun.now }
    {
        if !self.awake {
            return 0;
        }
        if begun.is_empty() {
            return 1;
        }
        self.length_behind(begun)
    }

    /// How many octets the message has that begins with these, of which there are some.
    fn length_behind(&self, begun: &[u8]) -> u8
        ensures { result ≡ length_behind self.now.waits self.now begun.now }
    {
        let control = first(begun);
        let Some(command) = &self.waits else {
            return whole_length(&self.layout, control);
        };
        let other = whole_length(&self.layout_in(command.into), control);
        if !command.octets.as_slice().starts_with(begun) {
            return other;
        }
        let repeated = command.octets.len() as u8;
        if begun.len() < other as usize {
            repeated.min(other)
        } else {
            repeated
        }
    }

    /// What the far end does on hearing these octets. Answers whether it replies;
    /// the reply is put into the buffer. A message that hands a request over takes the
    /// next number, and one that says that the output is valid ends a silence.
    ///
    /// Rules DEV-2, DEV-18.
    pub fn hear(
        &mut self,
        octets: &[u8],
        number: &mut u64,
        silent: &mut bool,
        reply: &mut Message,
    ) -> bool
        requires { reply.old.items ≡ [] }
        ensures far { self.new ≡ (far.hear self.old octets.now).far }
        ensures reply { octets_in_buffer result reply.new ≡ (far.hear self.old octets.now).reply }
        ensures unanswered { result ≡ false → reply.new.items ≡ [] }
        ensures answers { result ≡ is_some (far.accepted_message self.old octets.now) }
        ensures unheard { result ≡ false → self.new ≡ self.old }
        ensures number { number.new ≡ number_after number.old self.old octets.now }
        ensures silent { silent.new ≡ silent_after silent.old self.old octets.now }
    {
        let Some(message) = self.accept(octets) else {
            return false;
        };
        self.end_silence(&message, silent);
        let keeps_handed = self.keeps_handed(&message);
        self.work_message(octets, &message);
        if self.is_handed() && !keeps_handed {
            *number = number.wrapping_add(1);
        }
        self.reply(&message, reply);
        true
    }

    /// Whether a request that is handed over may stay so as this message comes.
    fn keeps_handed(&self, message: &MasterView<'_>) -> bool
        ensures { result ≡ keeps_handed self.now message.now }
    {
        // Most messages find none.
        self.is_handed() && !is_start_write(message.mc())
    }

    /// A message in the present layout ends a silence if it says that the output is valid.
    ///
    /// Rule DEV-19.
    fn end_silence(&self, message: &MasterView<'_>, silent: &mut bool)
        ensures { silent.new ≡ (if says_valid self.now.mode (far.command_in message.now)
            then false else silent.old) }
    {
        // Most messages find none.
        if *silent {
            *silent = !self.says_valid(message);
        }
    }

    /// Whether a message in the present layout says that the output is valid.
    fn says_valid(&self, message: &MasterView<'_>) -> bool
        ensures { result ≡ says_valid self.now.mode (far.command_in message.now) }
    {
        match command_in(message) {
            Some(MasterCommand::ProcessDataOutputOperate) => self.mode == DeviceMode::Operate,
            _ => false,
        }
    }

    fn work_message(&mut self, octets: &[u8], message: &MasterView<'_>)
        requires { length octets.now ≤ 66 }
        ensures { self.new ≡ far.far_after_message self.old octets.now message.now }
    {
        self.work_page(octets, message);
        self.work_isdu(message);
        self.work_events(message.mc());
        self.work_output(message.out());
    }

    /// A write on the page channel: a master command, or the octet of address 0x01.
    fn work_page(&mut self, octets: &[u8], message: &MasterView<'_>)
        requires { length octets.now ≤ 66 }
        ensures { self.new ≡ record self.old {
          waits = far.waits_after self.old.mode self.old.waits octets.now
              (far.known_mode self.old.page (far.mode_asked (far.command_in message.now)));
          valid = far.valid_after self.old.mode self.old.valid (far.command_in message.now);
          cycle_time = far.cycle_time_after self.old.cycle_time
              message.now.mc.channel message.now.mc.read message.now.mc.address
              (slice_index message.now.od.items 0);
        } }
    {
        let mc = message.mc();
        // Most messages are none.
        if mc.channel == Channel::Page && !mc.read {
            self.work_command(octets, command_in(message));
            self.work_cycle_time(message);
        }
    }

    /// The mode asked for, where a device of this page has it.
    ///
    /// Rule DEV-5.
    fn known_mode(&self, asked: Option<DeviceMode>) -> Option<DeviceMode>
        ensures { result ≡ far.known_mode self.now.page asked }
    {
        match asked {
            Some(DeviceMode::Preoperate) if self.layouts.pre.is_none() => None,
            _ => asked,
        }
    }

    /// Rules DEV-3, DEV-6.
    fn work_command(&mut self, octets: &[u8], command: Option<MasterCommand>)
        requires { length octets.now ≤ 66 }
        ensures { self.new ≡ record self.old {
          waits = far.waits_after self.old.mode self.old.waits octets.now
              (far.known_mode self.old.page (far.mode_asked command));
          valid = far.valid_after self.old.mode self.old.valid command;
        } }
    {
        if let Some(into) = self.known_mode(mode_asked(command))
            && into != self.mode
        {
            self.waits = Some(ModeCommand {
                into,
                octets: message_of(octets),
            });
        }
        if self.mode == DeviceMode::Operate {
            match command {
                Some(MasterCommand::ProcessDataOutputOperate) => self.valid = true,
                Some(MasterCommand::DeviceOperate) => self.valid = false,
                _ => {}
            }
        }
    }

    /// Rule DEV-10.
    fn work_isdu(&mut self, message: &MasterView<'_>)
        ensures { self.new ≡ record self.old {
          isdu = far.isdu_after self.old.kind self.old.counted (knows_isdu self.old.page)
              (layout_of self.old).od self.old.isdu message.now.mc.channel message.now.mc.read
              (flow_of message.now.mc.address) message.now.od.items;
          counted = far.counted_after self.old.kind.hands_over self.old.counted
              (knows_isdu self.old.page) message.now.mc.channel message.now.mc.read
              (flow_of message.now.mc.address);
        } }
    {
        let mc = message.mc();
        if mc.channel != Channel::Isdu {
            return;
        }
        let flow = flow_of(mc);
        if !self.layouts.isdu {
            self.isdu.clear();
        } else if mc.read {
            self.isdu.read(flow);
        } else {
            self.isdu.write(flow, message.od());
        }
    }

    fn work_events(&mut self, mc: Mc)
        ensures { self.new
            ≡ record self.old {
              events =
                  far.events_after self.old.events (far.is_confirm mc.channel mc.read mc.address);
            } }
    {
        if is_confirm(mc) {
            self.events.confirm();
        } else {
            self.events.other_heard();
        }
    }

    /// Rule DEV-6.
    fn work_output(&mut self, out: &[u8])
        requires { length out.now ≤ 32 }
        ensures { self.new
            ≡ record self.old { out = far.out_after self.old.mode self.old.out out.now } }
    {
        if self.mode == DeviceMode::Operate {
            take_image(&mut self.out, out);
        }
    }

    /// Rule DEV-9.
    fn work_cycle_time(&mut self, message: &MasterView<'_>)
        ensures { self.new ≡ record self.old {
          cycle_time = far.cycle_time_after self.old.cycle_time
              message.now.mc.channel message.now.mc.read message.now.mc.address
              (slice_index message.now.od.items 0);
        } }
    {
        let mc = message.mc();
        if mc.channel == Channel::Page && !mc.read && mc.address == 1 {
            self.cycle_time = first(message.od());
        }
    }

    /// The reply, read off the far end as it is after the message.
    ///
    /// Rule DEV-8.
    #[tactic(auto, unfolding(iol_far::specs::Codec::reply_octets))]
    fn reply(&self, message: &MasterView<'_>, reply: &mut Message)
        requires { reply.old.items ≡ [] }
        ensures { Some reply.new.items ≡ (far.with_reply self.now message.now).reply }
    {
        let layout = &self.layout;
        let mc = message.mc();
        if mc.read {
            self.append_data(reply, layout.od(), mc.channel, mc.address);
        }
        self.append_input(reply, layout.pd_in());
        let invalid = layout.pd_in() != 0 && self.input.is_none();
        close_reply(reply, self.events.flag(), invalid);
    }

    /// Puts the on-request data of the reply to a read at the end.
    ///
    /// Rule DEV-7.
    fn append_data(&self, octets: &mut Message, size: OdLength, channel: Channel, address: u8)
        requires size { size ≡ (layout_of self.now).od }
        requires empty { octets.old.items ≡ [] }
        ensures value { octets.new.items
            ≡ octets.old.items ++ far.data_of self.now size channel address }
        ensures length { length octets.new.items ≡ size }
    {
        match channel {
            Channel::Process => append_zeros(octets, size.get()),
            Channel::Page => append_first(octets, size, self.page_octet(address)),
            Channel::Diagnosis => append_first(octets, size, self.events.octet(address)),
            Channel::Isdu => self.isdu.append_data(octets),
        }
    }

    /// The octet at a page address.
    fn page_octet(&self, address: u8) -> u8
        ensures { result ≡ far.page_octet_of self.now address }
    {
        if address == 1 {
            self.cycle_time
        } else {
            self.page.octet(address)
        }
    }

    /// Puts the process data in at the end.
    ///
    /// Rule DEV-8.
    fn append_input(&self, octets: &mut Message, size: u8)
        requires size { size ≡ (layout_of self.now).pd_in }
        requires most { size ≤ 32 }
        requires room { length octets.old.items ≤ 32 }
        ensures value { octets.new.items ≡ octets.old.items ++ far.input_of self.now size }
        ensures length { length octets.new.items ≤ 64 }
    {
        match &self.input {
            Some(image) if size != 0 => append(octets, image.octets()),
            _ => append_zeros(octets, size),
        }
    }

    /// The request that is handed over.
    pub fn handed(&self) -> Option<&Request>
        ensures { option_copied result ≡ handed_request self.now.isdu }
    {
        self.isdu.handed()
    }

    /// Whether a request is handed over.
    pub fn is_handed(&self) -> bool
        ensures { result ≡ is_some (handed_request self.now.isdu) }
    {
        self.isdu.is_handed()
    }

    /// A handed request is carried out, where the record has room.
    ///
    /// Rule DEV-15.
    pub fn work<P: App>(&mut self, app: &mut P)
        ensures { IsCarriedOut P.carry_out_gives
            (handed_request self.old.isdu) self.old app.old self.new app.new }
    {
        // Most calls find none.
        if self.isdu.is_handed() && self.carried.has_room() {
            self.isdu.react(app, &mut self.carried);
        }
    }

    /// A handed request has this answer, where it fits and the record has room.
    ///
    /// Rule DEV-15.
    pub fn answer(&mut self, answer: Answer) -> Result<(), DeviceFault>
        ensures far { self.new ≡ local self.old (LocalStep.Carry answer) }
        ensures refusal { result_err result
            ≡ misfit (handed_request self.old.isdu) (has_room self.old) answer }
        ensures unchanged { OnErr result (self.new ≡ self.old) }
    {
        let Some(request) = self.isdu.handed() else {
            return Err(DeviceFault::OtherRequest);
        };
        if !is_kind_of(request, &answer) {
            Err(DeviceFault::WrongAnswerKind)
        } else if !self.carried.has_room() {
            Err(DeviceFault::OutOfMemory)
        } else {
            self.carried.push(request, &answer);
            self.isdu.answer(answer);
            Ok(())
        }
    }

    /// An event is raised.
    pub fn raise(&mut self, event: Event) -> Result<(), DeviceFault>
        ensures far { self.new ≡ local self.old (LocalStep.Raise event) }
        ensures full { IsErr result ↔ IsTrue (is_full self.old.events) }
        ensures refused { IfErr result (λ e. e ≡ DeviceFault.MemoryFull) }
        ensures unchanged { OnErr result (self.new ≡ self.old) }
    {
        self.events
            .raise(event)
            .map_err(|_| DeviceFault::MemoryFull)?;
        self.past = self.past.with_history(&event);
        Ok(())
    }

    /// Whether an image can be the input.
    ///
    /// Rule DEV-17.
    fn is_input(&self, image: &Image) -> bool
        ensures { result ≡ is_input self.now image.now }
    {
        image.octets().len() == self.layouts.run.pd_in() as usize
    }

    /// The process data in.
    ///
    /// Rule DEV-17.
    #[tactic(auto, using(std::proofs::lemmas::Bool::Decides::nat_tests))]
    pub fn set_input(&mut self, image: &Image) -> Result<(), DeviceFault>
        ensures far { self.new ≡ local self.old (LocalStep.Input image.now) }
        ensures fits { IsOk result ↔ IsTrue (is_input self.old image.now) }
        ensures refused { IfErr result (λ e. e ≡ DeviceFault.WrongImageLength) }
        ensures unchanged { OnErr result (self.new ≡ self.old) }
    {
        if !self.is_input(image) {
            return Err(DeviceFault::WrongImageLength);
        }
        self.input = Some(copy_of(image));
        self.past = self.past.with_history(image);
        Ok(())
    }

    /// No process data in.
    pub fn clear_input(&mut self)
        ensures { self.new ≡ local self.old LocalStep.NoInput }
    {
        self.input = None;
        self.past = self.past.with_history(&());
    }

    /// The power fails and comes back.
    ///
    /// Rule DEV-16.
    pub fn power_cycle(&mut self)
        ensures { self.new ≡ local self.old LocalStep.Power }
    {
        self.awake = false;
        self.isdu.clear();
        self.events.clear();
        self.input = None;
        self.valid = false;
        self.past = self.past.with_history(&());
    }

    /// A wake-up request came.
    ///
    /// Rule DEV-1.
    pub fn wake(&mut self)
        ensures { self.new ≡ far_after_wake self.old }
    {
        self.move_into(DeviceMode::Startup);
        self.awake = true;
        self.events.other_heard();
    }

    /// A law of its value, without code of its own: its parts are as they can be.
    pub fn parts_are_regular(&self)
        ensures { IsRegular self.now }
    {
        self.page.octets();
        self.events.flag();
        if let Some(image) = &self.input {
            image.octets();
        }
    }

    /// Whether it was woken since its power came.
    pub fn is_awake(&self) -> bool
        ensures { result ≡ self.now.awake }
    {
        self.awake
    }

    /// The mode.
    pub fn mode(&self) -> DeviceMode
        ensures { result ≡ self.now.mode }
    {
        self.mode
    }

    /// The octet of page address 0x01.
    pub fn cycle_time(&self) -> u8
        ensures { result ≡ self.now.cycle_time }
    {
        self.cycle_time
    }

    /// The page.
    pub fn page(&self) -> &[u8; 10]
        ensures { result.now ≡ self.now.page }
    {
        self.page.octets()
    }

    /// The process data out, only while it is valid.
    pub fn output(&self) -> Option<&Image>
        ensures { option_copied result ≡ far.output_of self.now }
    {
        if self.valid { self.out.as_ref() } else { None }
    }
}

impl<A: Allocator + Copy> FarEnd<FullRecord<A>> {
    /// The record.
    pub fn carried(&self) -> &[Carried]
        ensures { result.now ≡ self.now.carried }
    {
        self.carried.carried()
    }
}

/// How many octets a message in this layout has that begins with this one.
fn whole_length(layout: &Layout, control: u8) -> u8
    ensures { result ≡ whole_length layout.now control }
{
    let od = if control < READ { layout.od().get() } else { 0 };
    2 + layout.pd_out() + od
}

/// Whether a message is a START write on the ISDU channel.
fn is_start_write(mc: Mc) -> bool
    ensures { result ≡ is_start_write mc.channel mc.read (flow_of mc.address) }
{
    mc.channel == Channel::Isdu && !mc.read && flow_of(mc) == Flow::Start
}

/// Whether that mode is asked for.
fn is_that(asked: Option<DeviceMode>, mode: DeviceMode) -> bool
    ensures { result ≡ is_that asked mode }
{
    match asked {
        Some(asked) => asked == mode,
        None => false,
    }
}
