//! What Data Storage keeps of a device, and its octets, by which a program keeps it over a restart
//! (IEC 61131-9, Annex G).
ghost use Rattle.std.specs.Prelude.{◌≡◌, ◌<◌, ◌≤◌, ◌+◌, ◌*◌, ◌++◌, [], length, take, IfOk, IfErr};
ghost use Rattle.iol_storage.specs.Objects.{values_size};
ghost use Rattle.iol_storage.specs.Sets.{set_image, set_header, unit_image, object_image, objects_image};

use crate::StorageFault;
use crate::objects::{HEADER, MOST_OCTETS, Object, Objects};
use arrayvec::ArrayVec;
use iol_isdu::Place;

/// Where a device has its SerialNumber, by which units of one type differ (B.2.8).
pub(crate) const SERIAL_NUMBER: Place = Place { index: 21, sub: 0 };
/// The most octets of a SerialNumber.
pub(crate) const MOST_SERIAL: usize = 16;
/// The octets of a set before its unit: the checksum, VendorID, DeviceID and FunctionID.
const SET_HEADER: usize = 11;
/// The most octets of a set.
const MOST_IMAGE: usize = SET_HEADER + HEADER + MOST_SERIAL + MOST_OCTETS;

/// The SerialNumber of a unit; empty where it has none.
pub type SerialNumber = ArrayVec<u8, MOST_SERIAL>;

/// The octets of a set, as a program keeps them.
pub type SetImage = ArrayVec<u8, MOST_IMAGE>;

/// What Data Storage keeps of a device: its parameters, of which device they are, and the checksum
/// by which it can be seen whether they changed.
#[derive(Drop)]
pub struct Set {
    /// The device's own checksum over the values (B.2.3).
    pub checksum: [u8; 4],
    /// VendorID and DeviceID, as the device's page has them at 0x07 to 0x0B (B.1.8, B.1.9).
    pub device: [u8; 5],
    /// The unit that it was fetched of, where that counts: in mode Own. Empty, it is no unit's.
    pub unit: SerialNumber,
    /// The values, as the device's Index_List names them.
    pub objects: Objects,
}

impl Set {
    /// Puts the octets of the set in place of others: the checksum, VendorID, DeviceID, two octets
    /// 0, and of each parameter its Index, Subindex, the length of its value, and the value. The
    /// unit, if there is one, stands in front of them, as a parameter 21/0.
    ///
    /// Rule STO-2.
    pub fn write_into(&self, image: &mut SetImage)
        ensures { image.new.items ≡ set_image self.now }
    {
        image.clear();
        image.try_extend_from_slice(&self.checksum).unwrap();
        image.try_extend_from_slice(&self.device).unwrap();
        image.try_extend_from_slice(&[0, 0]).unwrap();
        write_unit(&self.unit, image);
        self.objects.are_few();
        for index in 0..self.objects.len() {
            write_object(&self.objects.get(index).unwrap(), image);
        }
    }
}

impl Set {
    /// The set that has these octets.
    ///
    /// The form names no count: octets that end behind a value are those of a smaller set. So
    /// whoever keeps them must know that they are whole.
    ///
    /// Refused by 44 where no set has them.
    pub fn read(image: &[u8]) -> Result<Set, StorageFault>
        ensures read { IfOk result (λ set. set_image set ≡ image.now) }
        ensures refused { IfErr result (λ why. why ≡ StorageFault.NoSet) }
    {
        let [a, b, c, d, e, f, g, h, i, 0, 0, rest @ ..] = image else {
            return Err(StorageFault::NoSet);
        };
        let mut unit = SerialNumber::new();
        let values = read_unit(rest, &mut unit);
        Ok(Set {
            checksum: [*a, *b, *c, *d],
            device: [*e, *f, *g, *h, *i],
            unit,
            objects: read_objects(values)?,
        })
    }
}

/// Takes the unit off the octets, if they begin with one, and answers those behind it.
fn read_unit<'a>(image: &'a [u8], unit: &mut SerialNumber) -> &'a [u8]
    requires { unit.old.items ≡ [] }
    ensures { unit_image unit.new.items ++ result.now ≡ image.now }
{
    match image {
        [0, 21, 0, size @ 1..=16, rest @ ..] if usize::from(*size) <= rest.len() => {
            let (value, rest) = rest.split_at(usize::from(*size));
            unit.try_extend_from_slice(value).unwrap();
            rest
        }
        _ => image,
    }
}

/// Puts the octets of the unit behind others, if there is one.
fn write_unit(unit: &SerialNumber, image: &mut SetImage)
    requires room { length image.old.items ≤ 11 }
    ensures written { image.new.items ≡ image.old.items ++ unit_image unit.now.items }
    ensures short { length image.new.items ≤ length image.old.items + 20 }
{
    if unit.is_empty() {
        return;
    }
    let object = Object {
        place: SERIAL_NUMBER,
        octets: unit,
    };
    write_object(&object, image);
}

/// The values that have these octets.
fn read_objects(image: &[u8]) -> Result<Objects, StorageFault>
    ensures read { IfOk result (λ objects. objects_image objects ≡ image.now) }
    ensures refused { IfErr result (λ why. why ≡ StorageFault.NoSet) }
{
    let mut objects = Objects::new();
    let mut rest = image;
    while !rest.is_empty() {
        rest = read_object(rest, &mut objects)?;
    }
    Ok(objects)
}

/// Takes one parameter off the octets, and answers those behind it.
fn read_object<'a>(image: &'a [u8], objects: &mut Objects) -> Result<&'a [u8], StorageFault>
    ensures read { IfOk result (λ rest.
        objects_image objects.new ++ rest.now ≡ objects_image objects.old ++ image.now) }
    ensures shorter { IfOk result (λ rest. length rest.now < length image.now) }
    ensures refused { IfErr result (λ why. why ≡ StorageFault.NoSet) }
{
    let [high, low, sub, size, rest @ ..] = image else {
        return Err(StorageFault::NoSet);
    };
    let size = usize::from(*size);
    if rest.len() < size {
        return Err(StorageFault::NoSet);
    }
    let (value, rest) = rest.split_at(size);
    let place = Place {
        index: u16::from_be_bytes([*high, *low]),
        sub: *sub,
    };
    match objects.push(place, value) {
        Ok(()) => Ok(rest),
        Err(_) => Err(StorageFault::NoSet),
    }
}

/// Puts the octets of one parameter behind others.
fn write_object(object: &Object, image: &mut SetImage)
    requires short { length object.now.octets.now ≤ 232 }
    requires room { length image.old.items + 4 + length object.now.octets.now ≤ 2079 }
    ensures { image.new.items ≡ image.old.items
        ++ object_image (object.now.place, object.now.octets.now) }
{
    let [high, low] = object.place.index.to_be_bytes();
    let size = object.octets.len() as u8;
    image
        .try_extend_from_slice(&[high, low, object.place.sub, size])
        .unwrap();
    image.try_extend_from_slice(object.octets).unwrap();
}
