//! How far a start-up of a master has come.
ghost use Rattle.std.specs.Prelude.{◌≡◌};
ghost use Rattle.iol_judge.specs.MasterPhases.{phase_after_command, is_in_operate, phase_layout};

use crate::open::Open;
use iol_mseq::Layout;
use iol_page::{Layouts, MasterCommand};

/// How far a start-up of a master has come.
#[derive(Clone, Copy, Debug, PartialEq, Eq)]
pub(crate) enum MasterPhase {
    /// A wake-up request is due.
    Down,
    Startup,
    /// The device has these layouts.
    Preoperate(Layouts),
    Operate(Layouts),
}

impl MasterPhase {
    /// The layout of its messages; that of STARTUP where a wake-up request is due.
    pub fn layout(&self) -> Layout
        ensures { result ≡ phase_layout self.now }
    {
        match self {
            MasterPhase::Down | MasterPhase::Startup => Layout::startup(),
            MasterPhase::Preoperate(layouts) => layouts.pre.unwrap_or(Layout::startup()),
            MasterPhase::Operate(layouts) => layouts.run,
        }
    }

    /// Once the good reply to a master command came, by what is known of the page's layouts.
    pub fn entered(
        self,
        layouts: Result<Layouts, Open>,
        command: Option<MasterCommand>,
    ) -> MasterPhase
        ensures { result ≡ phase_after_command self layouts command }
    {
        match (self, command, layouts) {
            (MasterPhase::Startup, Some(MasterCommand::DevicePreoperate), Ok(layouts)) => {
                MasterPhase::Preoperate(layouts)
            }
            (MasterPhase::Startup, Some(MasterCommand::DeviceOperate), Ok(layouts)) => {
                MasterPhase::Operate(layouts)
            }
            (MasterPhase::Preoperate(layouts), Some(MasterCommand::DeviceOperate), _) => {
                MasterPhase::Operate(layouts)
            }
            _ => self,
        }
    }

    /// Whether it is OPERATE.
    pub fn in_operate(&self) -> bool
        ensures { result ≡ is_in_operate self.now }
    {
        matches!(self, MasterPhase::Operate(_))
    }
}
