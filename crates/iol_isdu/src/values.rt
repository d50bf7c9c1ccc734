//! Requests, answers and places, as values.
ghost use Rattle.std.specs.Prelude.{◌≡◌, ◌<◌, ◌≤◌, ◌↔◌, IsErr, IfErr, IfOk, length};

use crate::fault::IsduFault;
use arrayvec::ArrayVec;
use std::alloc::AllocError;

/// The octets of a parameter: at most 232, so that they fit into one ISDU
/// beside the longest form of a place (IEC 61131-9, A.5.3 and A.5.4).
pub type Octets = ArrayVec<u8, 232>;

/// The text of an ISDU, from its first octet to its CHKPDU: 2 to 238 octets
/// (IEC 61131-9, A.5.3).
pub type Text = ArrayVec<u8, 238>;

/// Where a parameter lies in the device (IEC 61131-9, A.5.4).
#[derive(Clone, Copy, Debug, PartialEq, Eq)]
pub struct Place {
    /// The index of the parameter, 0 to 65,535.
    pub index: u16,
    /// The subindex, a part of the parameter; 0 is the whole of it.
    pub sub: u8,
}

/// What the master asks of the device by one ISDU (IEC 61131-9, A.5.2).
#[derive(Debug, PartialEq, Eq, Drop)]
pub enum Request {
    /// Read the parameter at this place.
    Read(Place),
    /// Write these octets to the parameter at this place.
    Write(Place, Octets),
}

/// What the device answers to one request (IEC 61131-9, A.5.2).
#[derive(Debug, PartialEq, Eq, Drop)]
pub enum Answer {
    /// Read response (+): the octets of the parameter that was read.
    Read(Octets),
    /// Write response (+): the octets were written.
    Written,
    /// Read or write response (-): ErrorCode and AdditionalCode, in this order.
    Refused(u8, u8),
}

/// Why the master cut off a request that it had begun (profile).
///
/// Whether the device has carried the request out is not known then.
#[derive(Clone, Copy, Debug, PartialEq, Eq)]
pub enum Cause {
    /// The device no longer replied.
    LinkLost,
    /// The master was told to start the link again.
    Restarted,
    /// The device was busy for as many replies as the master allows.
    BusyTooLong,
    /// The device sent no text of an answer.
    Protocol,
    /// The program asked for it, and the device has replied to the ABORT.
    Cancelled,
}

impl Request {
    ghost use Rattle.iol_isdu.specs.declared.values.Request.{Request};

    /// A read of the parameter at this place.
    pub fn read(place: Place) -> Request
        ensures { result ≡ Request.Read place }
    {
        Request::Read(place)
    }

    /// A write of these octets to the parameter at this place.
    ///
    /// Refused with 9 `DataTooLong` where there are more than 232.
    ///
    /// Rule ISDU-7.
    pub fn write(place: Place, octets: &[u8]) -> Result<Request, IsduFault>
        ensures long { IsErr result ↔ (232 < length octets.now) }
        ensures refused { IfErr result (λ why. why ≡ IsduFault.DataTooLong) }
        ensures value { IfOk result (λ request. request
            ≡ Request.Write place (record { items = octets.now })) }
    {
        let octets = Octets::try_from(octets).map_err(|_| IsduFault::DataTooLong)?;
        Ok(Request::Write(place, octets))
    }

    /// Becomes a copy of another one, where it lies.
    pub fn set(&mut self, other: &Request)
        ensures { self.new ≡ other.now }
    {
        match other {
            Request::Read(place) => *self = Request::Read(*place),
            Request::Write(place, octets) => self.set_write(*place, octets),
        }
    }

    /// Becomes a write of these octets, at most 232, to the parameter at this place.
    pub fn set_write(&mut self, place: Place, octets: &[u8])
        requires { length octets.now ≤ 232 }
        ensures { self.new ≡ Request.Write place (record { items = octets.now }) }
    {
        match self {
            Request::Write(own_place, own) => {
                *own_place = place;
                put(own, octets);
            }
            Request::Read(_) => {
                let mut own = Octets::new();
                put(&mut own, octets);
                *self = Request::Write(place, own);
            }
        }
    }
}

impl Answer {
    ghost use Rattle.iol_isdu.specs.declared.values.Answer.{Answer};

    /// Becomes a copy of another one, where it lies.
    pub fn set(&mut self, other: &Answer)
        ensures { self.new ≡ other.now }
    {
        match other {
            Answer::Read(octets) => self.set_read(octets),
            Answer::Written => *self = Answer::Written,
            Answer::Refused(error, additional) => *self = Answer::Refused(*error, *additional),
        }
    }

    /// Becomes the answer to a read with these octets, at most 232.
    pub fn set_read(&mut self, octets: &[u8])
        requires { length octets.now ≤ 232 }
        ensures { self.new ≡ Answer.Read (record { items = octets.now }) }
    {
        if !matches!(self, Answer::Read(_)) {
            *self = Answer::Read(Octets::new());
        }
        if let Answer::Read(own) = self {
            put(own, octets);
        }
    }
}

impl Clone for Request {
    ghost use Rattle.std.specs.Prelude.{◌≡◌, ⊤};

    ghost is_clone = { λ request copy. copy ≡ request };

    ghost is_infallible = { λ _. ⊤ };

    fn clone(&self) -> Result<Request, AllocError> {
        Ok(match self {
            Request::Read(place) => Request::Read(*place),
            Request::Write(place, octets) => Request::Write(*place, octets_copy(octets)),
        })
    }
}

impl Clone for Answer {
    ghost use Rattle.std.specs.Prelude.{◌≡◌, ⊤};

    ghost is_clone = { λ answer copy. copy ≡ answer };

    ghost is_infallible = { λ _. ⊤ };

    fn clone(&self) -> Result<Answer, AllocError> {
        Ok(match self {
            Answer::Read(octets) => Answer::Read(octets_copy(octets)),
            Answer::Written => Answer::Written,
            Answer::Refused(error, additional) => Answer::Refused(*error, *additional),
        })
    }
}

/// The octets once more, all of them in one step.
fn octets_copy(octets: &Octets) -> Octets
    ensures { result ≡ octets.now }
{
    let mut copy = Octets::new();
    put(&mut copy, octets);
    copy
}

/// Puts these octets in place of others.
fn put(own: &mut Octets, octets: &[u8])
    requires { length octets.now ≤ 232 }
    ensures { own.new.items ≡ octets.now }
{
    own.clear();
    own.try_extend_from_slice(octets).unwrap();
}
