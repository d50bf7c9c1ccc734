//! What goes out, as C sees it.
ghost use Rattle.std.specs.Prelude.{◌≡◌};
ghost use Rattle.iolink_port_forms.specs.Answers.{IsMessage};

use iol_app::Transmission;
use iolink_handle::put;

/// What goes out: `length` octets, or a wake-up request where that is 0, which leaves the rest.
#[repr(C)]
pub struct IolMessage {
    pub length: u8,
    pub octets: [u8; 66],
    /// How many octets a good reply has, 1 to 65: then it is whole.
    pub reply: u8,
    /// The layout of the mode: its M-sequence type, and the octets of each part.
    pub kind: u8,
    pub od: u8,
    pub pd_in: u8,
    pub pd_out: u8,
}

/// Shows C what goes out.
pub fn show_message(asked: Transmission, out: &mut IolMessage)
    ensures { IsMessage asked out.new }
{
    match asked {
        Transmission::Wake => out.length = 0,
        Transmission::Exchange(sent) => {
            out.length = sent.octets.len() as u8;
            put(sent.octets.as_slice(), &mut out.octets);
            out.reply = sent.reply;
            out.kind = sent.layout.kind().bits();
            out.od = sent.layout.od().get();
            out.pd_in = sent.layout.pd_in();
            out.pd_out = sent.layout.pd_out();
        }
    }
}
