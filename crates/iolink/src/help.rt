//! What the help of each command says below its usage. The forms of lines are those of crate iol_why.
use iol_why::Section;
use std::alloc::{AllocError, Global};

/// The version that `--version` prints.
pub(crate) const VERSION: &str = "0.1.0";

/// Where the help of each command stands, and where the formats are.
pub(crate) const PROGRAM: &str = "\
'iolink COMMAND --help' has the lines that a command reads, an example, its limits and the exit statuses.
With '--why' a command also says what is wrong with a bad line, where, and what is wanted there.
Every line, and what is printed for it, is in docs/guide.md.";

/// Before the lines of `check`.
const CHECK: &str = "\
Reads standard input to its end, a line at a time:
";

/// Behind them.
const CHECK_END: &str = "  # ..                    a comment; an empty line is skipped too

Example:
  printf 'm A2 00\\nr 17 1B\\n' | iolink check
prints
  read page 02
  od 17 event 0 pd valid

Limits: 1,048,576 bytes of input, 1,024 bytes a line, 1 to 128 octets a message; C, IN and OUT up to 255.

Exit status: 0, all is printed; 1, the command failed, and a line on standard error says why; 2, the words of
the command line are wrong, or ask for this help. After 1 and 2 nothing is printed, but where a write failed.

Every line, and what is printed for it: docs/guide.md.";

/// Before the settings of a script.
const SETTINGS: &str = "\
Reads standard input to its end, a line at a time. First the device and the port:
";

/// Before the lines of the wire.
const WIRE: &str = "\
Then, in any order, what happens on the wire, and the calls of the port. Lines of the wire are a list of their own: the
first is of the first call of the wire, wherever it stands among the calls of the port. With 'in order' each acts
behind the turns above it.
";

/// Before the calls.
const CALLS: &str = "The calls of the port:\n";

/// Before the lines of a port with Data Storage.
const STORAGE: &str =
    "With the first of these lines among the settings the port has Data Storage, and takes the others:\n";

/// Behind all lines.
const RUN_END: &str =
    "  # ..                                    a comment; an empty line is skipped too
H is octets without spaces, as 4142, or - for none.

Example:
  printf 'param 16 0 ro 4142\\nread 16 0\\nturn 18\\ncollect 1\\n' | iolink run
prints
  ticket 1
  ticket 1 done read 41 42
  record 1
  carried read 16 0: read 41 42

Limits: 1,048,576 bytes of input, 1,024 bytes a line, 32 parameters, N up to 100,000, 1,000,000 steps of the wire and
1,000,000 calls in all, QUEUE up to 64, 64 without it, 232 octets a value, 32 octets of process data, 32 in 'wire local',
32 lines of kept, range and atmost each, 76 writes a block.

A table with a flaw is refused, as by 'table: BadDefault in param N' or 'table: BrokenAtFirst in atmost N', where N counts
such lines from 1.

Exit status: 0, all is printed; 1, the command failed, and a line on standard error says why; 2, the words of
the command line are wrong, or ask for this help. After 1 and 2 nothing is printed, but where a write failed.

Every line, and what is printed for it: docs/guide.md.";

pub(crate) const TRACE: &str = "\
Reads standard input to its end: the lines of 'iolink run'. It prints what 'iolink run' prints, and for each call of the
wire what goes over it, numbered from 1, before the line of the call that made it:
  N wake COM2             a wake-up request, and the rate that was answered, or none
  N > OCTET ..: TEXT      a message as the master sent it, and what 'iolink check' prints for it
  N < OCTET ..: TEXT      what came back, and what 'iolink check' prints for it as a reply
  N < none                nothing came back

Example:
  printf 'wire clean 2\\nwire backlost 1\\nturn 3\\nstatus\\n' | iolink trace
prints
  1 wake COM2
  2 > A2 00: read page 02
  2 < 17 1B: od 17 event 0 pd valid
  3 > A3 11: read page 03
  3 < none
  status startup
  record 0

Limits: those of 'iolink run'. What is printed is written as it comes: a million turns print some 110 megabytes.

Exit status: 0, all is printed; 1, the command failed, and a line on standard error says why; 2, the words of
the command line are wrong, or ask for this help. After 1 and 2 nothing is printed, but where a write failed or
memory ran out.

Every line, and what is printed for it: docs/guide.md.";

/// Before the lines of a plan.
const PLAN: &str = "\
Reads standard input to its end: four lines in this order, and the fifth to see the counters.
";

/// Behind them.
const PLAN_END: &str = "  # ..                    a comment; an empty line is skipped too

Example:
  printf 'ports 2\\nclients 2\\neach 8\\nturns 100\\n' | iolink many
prints
  port 1 tickets 16 done 16 unknown 0 waiting 0
  port 2 tickets 16 done 16 unknown 0 waiting 0
  total 32

Limits: P up to 32, K up to 16, M up to 64, K times M up to 64, T up to 100,000; 1,048,576 bytes of input, 1,024 bytes
a line.

Exit status: 0, all is printed; 1, the command failed, and a line on standard error says why; 2, the words of
the command line are wrong, or ask for this help. After 1 and 2 nothing is printed, but where a write failed.

Every line, and what is printed for it: docs/guide.md.";

/// Before the lines of a trace.
const TRACE_LINES: &str = "\
Reads standard input to its end: the lines that 'iolink trace' prints.
";

/// Before the lines of an export.
const OCTETS: &str =
    "  ..                      a line that begins otherwise is counted: 'lines skipped COUNT'
N is any number at first, and then the next. It prints of the device one of these lines:
  honest COUNT exchanges, COUNT lost
  not honest at N: NUMBER NAME: TEXT (RULE)
  can't say from N on: NUMBER NAME: TEXT
  can't say: no wake-up request was answered
and before it of the master, by its first fault in the whole input, whatever is said of the device:
  master by the rules
  master not by the rules at N: NUMBER NAME: TEXT (RULES)
  master can't be judged: no wake-up request was made
and between them, where the device can't be of each kind, of which it may be:
  kind first|last keeps|forgets or ..
and before all 'unjudged COUNT', if exchanges came before the first wake-up request that was answered.

With --odd replies are passed over that are odd, but harmless, as though their octets were right: PD status 1 with
process data, another octet at page address 01 than was written, octets that aren't 0 where no data are. Printed are
  N odd: NUMBER NAME: TEXT (RULE)
for each of the first 100, in front of all else, and behind it 'odd COUNT', if there were any.

With --octets standard input is what the UART decoder of a logic analyser exports, octets of both sides in one stream:
";

/// Behind them.
const JUDGE_END: &str = "  # ..                    a comment; an empty line is skipped too
They are split by their times and by the layouts that the page gives: a pause is a missing reply, and where no wake-up
requests are shown, their test reads tell them. N counts wake-up requests and exchanges, from 1. What fits nothing is
passed over up to the next message that does, and so are octets with framing or parity errors: 'octets passed over
COUNT'. In PREOPERATE and OPERATE such a read may be none; a fault of the master behind it, or behind damage, is
  master can't be judged from N on: TEXT
Read are too: what sigrok-cli prints with --protocol-decoder-samplenum and what PulseView exports, behind a line
'Samplerate: HZ'; what sigrok-cli prints with --protocol-decoder-jsontrace; tables of Logic 1 and Logic 2 with their
headers. Lines of anything else are 'lines skipped COUNT'. Where the times of octets speak for another rate, it says so:
  at RATE the octets overlap; is it RATE?   or   are far apart

With --trace it prints what they are split into before all that, as it comes, and up to a bad line. A call has the lines
of 'iolink trace', and before them 'time SECONDS', when its message or its wake-up request began:
  time SECONDS            with nine digits behind the point
  N wake RATE             a wake-up request, with its test read, and the rate that was given, or none
  maybe wake              where no wake-up requests are shown, one that wasn't answered, or none
  N > OCTET ..: TEXT      a message
  N < OCTET ..: TEXT      what came back, or N < none

Example:
  printf '1 wake COM2\\n2 > A2 00\\n2 < 17 1B\\n3 > A2 00\\n3 < 18 1B\\n' | iolink judge
prints
  master by the rules
  not honest at 3: 9 PageChanged: an octet of the page that was another before (PAGE-1)

Limits: 1,024 bytes a line, 128 octets a message. The input may have any length.

Exit status: 0, honest; 1, not honest, or it can't say; 2, the input is bad, and a line on standard error says why, or
the words of the command line are wrong, or ask for this help; 3, honest, but the master isn't by the rules.

Every line, and what is printed for it: docs/guide.md.";

/// At which column of a line of help it is said what a form is for: where forms are long, and short.
const WIDE: usize = 42;

const NARROW: usize = 26;

/// The help of the commands whose lines have forms.
#[derive(Drop)]
pub(crate) struct Help {
    pub check: String,
    pub run: String,
    pub many: String,
    pub judge: String,
}

impl Help {
    pub fn new(alloc: Global) -> Result<Help, AllocError> {
        let mut check = String::new(alloc);
        check.push_str(CHECK)?;
        Section::Check.print(&mut check, NARROW)?;
        check.push_str(CHECK_END)?;

        let mut run = String::new(alloc);
        run.push_str(SETTINGS)?;
        Section::Settings.print(&mut run, WIDE)?;
        run.push_str(WIRE)?;
        Section::Wire.print(&mut run, WIDE)?;
        run.push_str(CALLS)?;
        Section::Calls.print(&mut run, WIDE)?;
        run.push_str(STORAGE)?;
        Section::Storage.print(&mut run, WIDE)?;
        run.push_str(RUN_END)?;

        let mut many = String::new(alloc);
        many.push_str(PLAN)?;
        Section::Plan.print(&mut many, NARROW)?;
        many.push_str(PLAN_END)?;

        let mut judge = String::new(alloc);
        judge.push_str(TRACE_LINES)?;
        Section::Trace.print(&mut judge, NARROW)?;
        judge.push_str(OCTETS)?;
        Section::Octets.print(&mut judge, NARROW)?;
        judge.push_str(JUDGE_END)?;
        Ok(Help {
            check,
            run,
            many,
            judge,
        })
    }
}
