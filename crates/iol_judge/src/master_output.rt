//! The process data out of a master.
ghost use Rattle.std.specs.Prelude.{◌≡◌};
ghost use Rattle.iol_far.specs.Far.{command_in};
ghost use Rattle.iol_judge.specs.MasterOutputs.{aged_output, allows_octets, output_after_message, no_output, woken_output};
ghost use Rattle.iol_judge.specs.BlameResults.{result_or_blame};

use crate::blame::Blame;
use iol_far::command_in;
use iol_mseq::{MasterView, Part, part_of};
use iol_octets::are_zeros;
use iol_page::MasterCommand;

/// What the messages before carried as process data out.
#[derive(Debug, Drop)]
pub(crate) enum CarriedOutput {
    /// The capture has none of OPERATE yet.
    Unknown,
    /// These octets, in the session before.
    Before(Part),
    /// These octets, in this session.
    Last(Part),
}

/// The process data out of a master.
#[derive(Debug, Drop)]
pub(crate) struct Output {
    pub carried: CarriedOutput,
    /// Whether the device was told that its output is valid.
    pub valid: bool,
}

impl CarriedOutput {
    /// Whether a message may carry these octets that leaves the device's output invalid.
    fn allows(&self, octets: &[u8]) -> bool
        ensures { result ≡ allows_octets self.now octets.now }
    {
        match self {
            CarriedOutput::Unknown => true,
            CarriedOutput::Before(before) => octets == before.as_slice() || are_zeros(octets),
            CarriedOutput::Last(last) => octets == last.as_slice(),
        }
    }

    /// Once another session begins.
    fn aged(self) -> CarriedOutput
        ensures { result ≡ aged_output self }
    {
        match self {
            CarriedOutput::Unknown => CarriedOutput::Unknown,
            CarriedOutput::Before(octets) => CarriedOutput::Before(octets),
            CarriedOutput::Last(octets) => CarriedOutput::Before(octets),
        }
    }
}

impl Output {
    /// Of a capture that just began.
    pub fn new() -> Output
        ensures { result ≡ no_output }
    {
        Output {
            carried: CarriedOutput::Unknown,
            valid: false,
        }
    }

    /// Once a wake-up request was made.
    pub fn woken(self) -> Output
        ensures { result ≡ woken_output self }
    {
        Output {
            carried: self.carried.aged(),
            valid: false,
        }
    }

    /// Once a new message of OPERATE is sent, which may be a command. Refusal 5 OutputOctets.
    pub fn carry(&mut self, message: &MasterView<'_>) -> Result<(), Blame>
        ensures { result_or_blame result self.new
            ≡ output_after_message self.old (command_in message.now) message.now.out.items }
    {
        let octets = message.out();
        let valid = match command_in(message) {
            Some(MasterCommand::ProcessDataOutputOperate) => true,
            Some(MasterCommand::DeviceOperate) => false,
            _ => self.valid,
        };
        if !valid && !self.carried.allows(octets) {
            return Err(Blame::OutputOctets);
        }
        self.carried = CarriedOutput::Last(part_of(octets));
        self.valid = valid;
        Ok(())
    }
}
