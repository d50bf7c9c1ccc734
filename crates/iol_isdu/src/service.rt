//! The services of texts, and the total lengths of each (IEC 61131-9, A.5.2).
ghost use Rattle.std.specs.Prelude.{◌≡◌, ◌<◌, ℕ, false, IfSome, IfNone};
ghost use Rattle.iol_isdu.specs.Services.{service_number};
ghost use Rattle.iol_isdu.specs.Requests.{Holds, index_part, shortest, request_accepts};
ghost use Rattle.iol_isdu.specs.Answers.{answer_accepts};

use crate::values::Place;
use arrayvec::ArrayVec;

/// How the text of a request says its place.
#[derive(Clone, Copy)]
pub(crate) enum Form {
    /// An 8-bit index; the subindex is 0.
    Index,
    /// An 8-bit index and a subindex.
    IndexSub,
    /// A 16-bit index, its high octet first, and a subindex.
    WideIndexSub,
}

/// What a text is, as the high four bits of its first octet say (IEC 61131-9, A.5.2).
#[derive(Clone, Copy)]
pub(crate) enum Service {
    /// Write request.
    Write(Form),
    /// Write response (-).
    WriteRefused,
    /// Write response (+).
    WriteDone,
    /// Read request.
    Read(Form),
    /// Read response (-).
    ReadRefused,
    /// Read response (+).
    ReadDone,
}

impl Service {
    /// The service of the high four bits of a first octet, where they are one.
    ///
    /// Rule ISDU-3.
    pub fn from_bits(bits: u8) -> Option<Service>
        ensures known { IfSome result (λ service. service_number service ≡ bits) }
        ensures no_request { IfNone result ((total : ℕ) → request_accepts bits total ≡ false) }
        ensures no_answer { IfNone result ((total : ℕ) → answer_accepts bits total ≡ false) }
    {
        match bits {
            0x1 => Some(Service::Write(Form::Index)),
            0x2 => Some(Service::Write(Form::IndexSub)),
            0x3 => Some(Service::Write(Form::WideIndexSub)),
            0x4 => Some(Service::WriteRefused),
            0x5 => Some(Service::WriteDone),
            0x9 => Some(Service::Read(Form::Index)),
            0xA => Some(Service::Read(Form::IndexSub)),
            0xB => Some(Service::Read(Form::WideIndexSub)),
            0xC => Some(Service::ReadRefused),
            0xD => Some(Service::ReadDone),
            _ => None,
        }
    }

    /// The high four bits of its first octet.
    pub fn bits(self) -> u8
        ensures value { result ≡ service_number self }
        ensures small { result < 16 }
    {
        match self {
            Service::Write(Form::Index) => 0x1,
            Service::Write(Form::IndexSub) => 0x2,
            Service::Write(Form::WideIndexSub) => 0x3,
            Service::WriteRefused => 0x4,
            Service::WriteDone => 0x5,
            Service::Read(Form::Index) => 0x9,
            Service::Read(Form::IndexSub) => 0xA,
            Service::Read(Form::WideIndexSub) => 0xB,
            Service::ReadRefused => 0xC,
            Service::ReadDone => 0xD,
        }
    }
}

impl Form {
    /// The shortest form that says this place.
    pub fn shortest(place: &Place) -> Form
        ensures value { result ≡ shortest place.now }
        ensures holds { Holds result place.now }
    {
        match (place.index, place.sub) {
            (0..=0xFF, 0) => Form::Index,
            (0..=0xFF, _) => Form::IndexSub,
            _ => Form::WideIndexSub,
        }
    }

    /// The index part of a place that this form says.
    ///
    /// Rule ISDU-5.
    pub fn index_part(self, place: &Place) -> ArrayVec<u8, 3>
        requires { Holds self place.now }
        ensures { result.items ≡ index_part self place.now }
    {
        let [high, low] = place.index.to_be_bytes();
        let mut part = ArrayVec::new();
        match self {
            Form::Index => part.push(low),
            Form::IndexSub => {
                part.push(low);
                part.push(place.sub);
            }
            Form::WideIndexSub => {
                part.push(high);
                part.push(low);
                part.push(place.sub);
            }
        }
        part
    }
}
