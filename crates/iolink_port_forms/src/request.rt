//! How a request is entered, and what a call answers.
ghost use Rattle.std.specs.Prelude.{◌≡◌, IfSome, IfNone};
ghost use Rattle.iolink_port_forms.specs.Answers.{answer_number};

use iol_port::PortFault;
use iolink_handle::CLOSED;

/// Before which requests that wait a new one goes.
#[derive(Clone, Copy)]
pub enum Urgency {
    /// Before none.
    Ordinary,
    /// Before all that aren't urgent.
    Urgent,
}

/// 0, or the number of the refusal: 252 where the handle is closed.
pub fn code_of(answer: Option<Result<(), PortFault>>) -> u8
    ensures closed { IfNone answer (result ≡ 252) }
    ensures number { IfSome answer (λ answer. result ≡ answer_number answer) }
{
    match answer {
        Some(Ok(())) => 0,
        Some(Err(fault)) => fault.code(),
        None => CLOSED,
    }
}
