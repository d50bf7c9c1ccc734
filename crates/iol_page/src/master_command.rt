//! MasterCommand (IEC 61131-9, B.1.2).
ghost use Rattle.std.specs.Prelude.{◌≡◌, IfSome, Some};

/// A MasterCommand, written to address 0x00 (IEC 61131-9, B.1.2).
#[derive(Clone, Copy, Debug, PartialEq, Eq)]
pub enum MasterCommand {
    /// 0x5A: back to SIO mode.
    Fallback,
    /// 0x95: the master speaks V1.1.
    MasterIdent,
    /// 0x96: the check of the device's identity begins.
    DeviceIdent,
    /// 0x97: to STARTUP.
    DeviceStartup,
    /// 0x98: the process data out is valid from now on.
    ProcessDataOutputOperate,
    /// 0x99: to OPERATE, or the process data out is invalid from now on.
    DeviceOperate,
    /// 0x9A: to PREOPERATE.
    DevicePreoperate,
}

impl MasterCommand {
    ghost use Rattle.iol_page.specs.Commands.{command_of, command_octet};

    /// Reads a MasterCommand. None: the standard names no command of this octet.
    ///
    /// Rule PAGE-6.
    pub fn from_octet(octet: u8) -> Option<MasterCommand>
        ensures value { result ≡ command_of octet }
        ensures written { IfSome result (λ command. command_octet command ≡ octet) }
    {
        match octet {
            0x5A => Some(MasterCommand::Fallback),
            0x95 => Some(MasterCommand::MasterIdent),
            0x96 => Some(MasterCommand::DeviceIdent),
            0x97 => Some(MasterCommand::DeviceStartup),
            0x98 => Some(MasterCommand::ProcessDataOutputOperate),
            0x99 => Some(MasterCommand::DeviceOperate),
            0x9A => Some(MasterCommand::DevicePreoperate),
            _ => None,
        }
    }

    /// Writes the MasterCommand.
    ///
    /// Rule PAGE-6.
    pub fn octet(self) -> u8
        ensures value { result ≡ command_octet self }
        ensures read { command_of result ≡ Some self }
    {
        match self {
            MasterCommand::Fallback => 0x5A,
            MasterCommand::MasterIdent => 0x95,
            MasterCommand::DeviceIdent => 0x96,
            MasterCommand::DeviceStartup => 0x97,
            MasterCommand::ProcessDataOutputOperate => 0x98,
            MasterCommand::DeviceOperate => 0x99,
            MasterCommand::DevicePreoperate => 0x9A,
        }
    }
}
