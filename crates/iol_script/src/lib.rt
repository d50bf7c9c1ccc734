//! What the lines of the program's input say.
//!
//! A text is cut into numbered lines and a line into words; a word is a name, a number or octets.
//! A [`CheckLine`] asks for a layout or spells a message. A [`RunLine`] sets up a device and a
//! port, makes steps of the wire between them, or makes calls of the port, and a [`Script`] is
//! what all the lines of a text set up. A [`Plan`] is what the lines of a text say that many
//! ports and their clients are to do. All of this is this project's own format (profile).
//!
//! Definitions begin in `specs/Text`; then `CheckLines`, `RunLines`, `Script` and `Plan`. A text is
//! read exactly where each line is good; else its first bad line is named.
#![tactic(auto)]

mod call_check;
mod call_line;
mod check_line;
mod draft;
mod fault;
mod fields;
mod numerals;
mod parts;
mod plan;
mod plan_draft;
mod run_line;
mod script;
mod setting;
mod table_lines;
mod wire_line;

pub use call_line::{CallLine, NAMED_CALLS};
pub use check_line::{CheckLine, LayoutLine, LineOctets};
pub use fault::ScriptFault;
pub use numerals::{
    decimal_number, hexadecimal_code, hexadecimal_octet, hexadecimal_octets, parted_octets,
};
pub use parts::{TextLines, Words};
pub use plan::{Plan, ShownCounts};
pub use run_line::RunLine;
pub use script::Script;
pub use setting::Setting;
pub use table_lines::{NumberOrder, NumberRange, TableLines};
pub use wire_line::WireLine;
