//! The forms of the lines that each command reads.
use crate::field::{Field, Value};
use crate::form::{LineForm, Part};
use iol_script::NAMED_CALLS;

/// A number in its range.
macro_rules! number {
    ($letters:literal, $name:literal, $least:literal, $most:expr) => {
        Field {
            letters: $letters,
            name: $name,
            value: Value::Number {
                least: $least,
                most: $most,
            },
        }
    };
}

/// A word that stands for a value.
macro_rules! one {
    ($field:expr) => {
        Part::Field($field)
    };
}

/// This word.
macro_rules! word {
    ($name:literal) => {
        Part::Words(&[$name])
    };
}

/// A form: its parts, and what it is for.
macro_rules! form {
    ($about:literal, $($part:expr),+) => {
        LineForm {
            parts: &[$($part),+],
            about: $about,
        }
    };
}

const OCTET: Field = Field {
    letters: "OCTET",
    name: "octet",
    value: Value::Octet,
};

const PAGE: Part = Part::Fields {
    field: OCTET,
    least: 10,
    most: 10,
};

const MESSAGE: Part = Part::Fields {
    field: OCTET,
    least: 1,
    most: 128,
};

const CODE: Field = number!("C", "M-sequence code", 0, 255);

const DATA_IN: Field = number!("IN", "count of octets in", 0, 255);

const DATA_OUT: Field = number!("OUT", "count of octets out", 0, 255);

/// The lines of `check`.
pub(crate) static CHECK: [LineForm; 6] = [
    form!(
        "the layout of the messages from now on; STARTUP at first",
        word!("layout"),
        word!("startup")
    ),
    form!(
        "C is the code of the M-sequence capability",
        word!("layout"),
        word!("preoperate"),
        one!(CODE)
    ),
    form!(
        "IN and OUT are the octets of process data",
        word!("layout"),
        word!("operate"),
        one!(CODE),
        one!(DATA_IN),
        one!(DATA_OUT)
    ),
    form!(
        "a master message, each octet as two hexadecimal digits",
        word!("m"),
        MESSAGE
    ),
    form!("the reply to a read", word!("r"), MESSAGE),
    form!("the reply to a write", word!("w"), MESSAGE),
];

const INDEX: Field = number!("INDEX", "index", 0, 65_535);

const SUB: Field = number!("SUB", "subindex", 0, 255);

const VALUE: Field = Field {
    letters: "H",
    name: "value",
    value: Value::Octets {
        least: 0,
        most: 232,
    },
};

const CHANGE: Field = Field {
    letters: "H",
    name: "value",
    value: Value::Octets { least: 0, most: 32 },
};

const DATA: Field = Field {
    letters: "H",
    name: "process data",
    value: Value::Octets { least: 1, most: 32 },
};

const TICKET: Field = number!("T", "ticket", 0, u64::MAX);

const COUNT: Field = number!("N", "count", 1, 100_000);

const BUSY: Field = number!("BUSY", "limit of busy replies", 2, 65_535);

const JOURNAL: Field = number!("JOURNAL", "limit of the journal", 4, 1_000_000);

const QUEUE: Field = number!("QUEUE", "limit of tickets", 1, 64);

const VENDOR: Field = number!("VENDOR", "VendorID", 0, 65_535);

const DEVICE: Field = number!("DEVICE", "DeviceID", 0, 16_777_215);

const MICROS: Field = number!("MICROS", "cycle time in microseconds", 1, 132_800);

const QUALIFIER: Field = Field {
    letters: "QQ",
    name: "event qualifier",
    value: Value::Octet,
};

const EVENT_CODE: Field = Field {
    letters: "CCCC",
    name: "event code",
    value: Value::Code,
};

const PORTS: Field = number!("P", "count of ports", 1, 32);

const CLIENTS: Field = number!("K", "count of clients", 1, 16);

const EACH: Field = number!("M", "count of requests", 1, 64);

const TURNS: Field = number!("T", "count of turns", 1, 100_000);

const CALL: Field = number!("N", "number of a call", 1, u64::MAX);

const WIRE_RESULT: Part = Part::Fields {
    field: OCTET,
    least: 0,
    most: 128,
};

const SECONDS: Field = Field {
    letters: "SECONDS",
    name: "time",
    value: Value::Seconds,
};

const SHOWN_OCTET: Field = Field {
    letters: "OCTET",
    name: "octet",
    value: Value::ShownOctet,
};

const LOW: Field = number!("LOW", "lowest number", 0, 4_294_967_295);

const HIGH: Field = number!("HIGH", "highest number", 0, 4_294_967_295);

/// The settings of a script.
pub(crate) static SETTINGS: [LineForm; 11] = [
    form!(
        "direct parameter page 1 of the device, 0x02 to 0x0B",
        word!("page"),
        PAGE
    ),
    form!(
        "that of a second device, not plugged in, with the same parameters",
        word!("other"),
        PAGE
    ),
    form!(
        "its kind: when it hands a request over, and how long it knows the answer",
        word!("kind"),
        Part::Words(&["first", "last"]),
        Part::Words(&["keeps", "forgets"])
    ),
    form!(
        "it may miss the pulse of a wake-up request, and hear the test read alone",
        word!("pulses"),
        word!("missed")
    ),
    form!(
        "for which devices the port is opened: our own, as it is, or any",
        word!("devices"),
        Part::Words(&["own", "any"])
    ),
    form!(
        "the busy replies that end a request, the entries of the journal, the tickets",
        word!("limits"),
        one!(BUSY),
        Part::WordsOr(&["0"], JOURNAL),
        Part::Optional(QUEUE)
    ),
    form!(
        "a parameter that is read; rw: and written",
        word!("param"),
        one!(INDEX),
        one!(SUB),
        Part::Words(&["ro", "rw"]),
        one!(VALUE)
    ),
    form!(
        "the parameters are a table, of which Data Storage keeps this Index",
        word!("kept"),
        one!(INDEX)
    ),
    form!(
        "and this one is a number, the high octet first, from LOW to HIGH",
        word!("range"),
        one!(INDEX),
        one!(SUB),
        one!(LOW),
        one!(HIGH)
    ),
    form!(
        "and of two numbers that it keeps the first is at most the second",
        word!("atmost"),
        one!(INDEX),
        one!(SUB),
        one!(INDEX),
        one!(SUB)
    ),
    form!(
        "each line of the wire acts behind the turns that stand above it",
        word!("in"),
        word!("order")
    ),
];

/// The lines of the wire.
pub(crate) static WIRE: [LineForm; 10] = [
    form!(
        "what becomes of the next N calls of the wire",
        word!("wire"),
        Part::Words(&[
            "clean",
            "outlost",
            "backlost",
            "outdamaged",
            "backdamaged",
            "nowake"
        ]),
        one!(COUNT)
    ),
    form!(
        "from the next call on nothing reaches the device",
        word!("wire"),
        word!("silent")
    ),
    form!(
        "the device carries out what it was handed",
        word!("wire"),
        word!("work")
    ),
    form!(
        "whether it does so before each call; it does at first",
        word!("wire"),
        word!("auto"),
        Part::Words(&["on", "off"])
    ),
    form!(
        "an event of the device",
        word!("wire"),
        word!("raise"),
        one!(QUALIFIER),
        one!(EVENT_CODE)
    ),
    form!(
        "the device's process data",
        word!("wire"),
        word!("input"),
        Part::WordsOr(&["none"], DATA)
    ),
    form!("a power cycle of the device", word!("wire"), word!("power")),
    form!(
        "the second device is plugged in in place of the first, or the first again",
        word!("wire"),
        word!("swap")
    ),
    form!(
        "the device's driver says that no message came for too long",
        word!("wire"),
        word!("quiet")
    ),
    form!(
        "the device itself changes a parameter of its table, as by a button",
        word!("wire"),
        word!("local"),
        one!(INDEX),
        one!(SUB),
        one!(CHANGE)
    ),
];

/// The calls of the port.
pub(crate) static CALLS: [LineForm; 18] = [
    form!(
        "submits a request, and prints its ticket",
        word!("read"),
        one!(INDEX),
        one!(SUB)
    ),
    form!(
        "the same",
        word!("write"),
        one!(INDEX),
        one!(SUB),
        one!(VALUE)
    ),
    form!(
        "the same, before all that are not urgent",
        word!("urgent"),
        word!("read"),
        one!(INDEX),
        one!(SUB)
    ),
    form!(
        "the same",
        word!("urgent"),
        word!("write"),
        one!(INDEX),
        one!(SUB),
        one!(VALUE)
    ),
    form!("the outcome of a ticket", word!("collect"), one!(TICKET)),
    form!(
        "takes a request back that waits",
        word!("withdraw"),
        one!(TICKET)
    ),
    form!(
        "asks to cut off a request that is under way",
        word!("cancel"),
        one!(TICKET)
    ),
    form!(
        "whatever comes of a ticket is dropped",
        word!("abandon"),
        one!(TICKET)
    ),
    form!(
        "process data out",
        word!("output"),
        Part::WordsOr(&["none"], DATA)
    ),
    form!("process data in", word!("image")),
    form!(
        "as the port's calls of these names",
        Part::Words(NAMED_CALLS)
    ),
    form!("what the port counted since its opening", word!("counters")),
    form!(
        "why the last session ended, until the next OPERATE",
        word!("last")
    ),
    form!(
        "which device the port expects",
        word!("expect"),
        one!(VENDOR),
        one!(DEVICE)
    ),
    form!("it expects any", word!("expect"), word!("any")),
    form!(
        "the cycle time that it asks for",
        word!("cycle"),
        Part::WordsOr(&["least"], MICROS)
    ),
    form!("the page of the device, as the port read it", word!("page")),
    form!(
        "N turns of the port, each one call of the wire",
        word!("turn"),
        one!(COUNT)
    ),
];

/// The lines of a plan, in their order.
pub(crate) static PLAN: [LineForm; 5] = [
    form!("how many ports", word!("ports"), one!(PORTS)),
    form!(
        "how many clients at each port",
        word!("clients"),
        one!(CLIENTS)
    ),
    form!(
        "how many reads each client submits",
        word!("each"),
        one!(EACH)
    ),
    form!(
        "how many turns each port makes while they do, and as many afterwards",
        word!("turns"),
        one!(TURNS)
    ),
    form!(
        "behind the line of each port, what it counted",
        word!("counters")
    ),
];

/// The lines of a trace.
pub(crate) static TRACE: [LineForm; 6] = [
    form!(
        "a wake-up request, and the rate that was answered, or none",
        one!(CALL),
        word!("wake"),
        Part::Words(&["COM1", "COM2", "COM3", "none"])
    ),
    form!(
        "a message as the master sent it; what stands behind a colon isn't read",
        one!(CALL),
        word!(">"),
        WIRE_RESULT
    ),
    form!("what came back", one!(CALL), word!("<"), WIRE_RESULT),
    form!("nothing came back", one!(CALL), word!("<"), word!("none")),
    form!(
        "before the first of these: direct parameter page 1 of the device, 0x02 to 0x0B",
        word!("page"),
        PAGE
    ),
    form!("passed over", word!("page"), word!("none")),
];

/// The lines of a decoder's export.
pub(crate) static OCTETS: [LineForm; 3] = [
    form!(
        "an octet, as A2 or 0xA2, and when it begins: 12.000042",
        one!(SECONDS),
        one!(SHOWN_OCTET)
    ),
    form!(
        "a wake-up request, where the decoder shows them",
        one!(SECONDS),
        word!("wake")
    ),
    form!(
        "in front: it begins in OPERATE, at a device with this page, 0x02 to 0x0B",
        word!("page"),
        PAGE
    ),
];

const BLOCK: Field = number!("N", "block", 0, u64::MAX);

const SET: Field = Field {
    letters: "H",
    name: "set",
    value: Value::Octets {
        least: 0,
        most: 512,
    },
};

/// The lines of a port with Data Storage, the setting first.
pub(crate) static STORAGE: [LineForm; 9] = [
    form!(
        "the port has Data Storage in this mode, and blocks; a setting",
        word!("store"),
        Part::Words(&["off", "restore", "both", "own"])
    ),
    form!(
        "submits a block of writes; store: the device asks for a fetch of them",
        word!("block"),
        Part::Words(&["plain", "store"]),
        one!(INDEX),
        one!(SUB),
        one!(VALUE),
        Part::Repeated(&["/"], &[INDEX, SUB, VALUE])
    ),
    form!("the outcome of a block", word!("outcome"), one!(BLOCK)),
    form!(
        "what came of Data Storage in this session",
        word!("standing")
    ),
    form!("the set that is kept", word!("set")),
    form!("the set that was fetched is saved", word!("save")),
    form!("this set is kept from now on", word!("load"), one!(SET)),
    form!("none is", word!("forget")),
    form!("the device is used in spite of a trouble", word!("release")),
];
