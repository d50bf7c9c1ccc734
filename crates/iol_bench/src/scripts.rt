//! Lines of the program.
use crate::check_word::CheckWord;
use crate::fault::BenchFault;
use iol_script::Script;
use std::alloc::Global;

/// A script of 20 lines, with one of each kind.
const LINES: &[u8] = b"\
# A script of all kinds of lines.
page 17 2F 11 82 82 12 34 00 01 07
limits 100 1000
param 16 0 ro 4142
param 24 1 rw 000102030405060708090A0B0C0D0E0F
wire clean 15
wire backlost 1
wire raise F4 4210
wire input 123456
wire auto off
wire work
output 5A5A5A
read 16 0
write 24 1 F0F1F2F3F4F5F6F7F8F9FAFBFCFDFEFF
turn 18
collect 1
withdraw 2
status
image
event
";

/// A script is read.
#[inline(never)]
pub(crate) fn script(alloc: Global, count: u64) -> Result<CheckWord, BenchFault> {
    let mut word = CheckWord::new();
    word.add_octets(LINES);
    for _ in 0..count {
        let script = Script::read(alloc, LINES)?;
        word.add(script.steps.len() as u64);
        word.add(u64::from(script.limits.busy.replies()));
        word.add(u64::from(script.page.octet(3)));
    }
    Ok(word)
}
