//! Laws of both ends of Data Storage, without code.
ghost use Rattle.iol_exchange.specs.Exchange.{RestoredSetsAreInForce, FetchedSetsAreTheDevices, SetsMove};

use iol_params::sets_fit;

/// A law of the definitions: what a master fetched of one device it can restore at each other one
/// of its table. That is at rest and not locked, and its flag, if it counts, isn't set. Each
/// request of the restore is taken. Behind the last one it is applied, and the device has this
/// set, and its checksum.
///
/// Needed by `laws::sets_move` and the promises of assurance.md.
pub fn restored_sets_are_in_force()
    ensures { RestoredSetsAreInForce }
{
    sets_fit();
}

/// A law of the definitions: what a master fetches of a device is the device's set. The fetch
/// begins with the device's checksum, at rest and with no lock of Data Storage. It ends as Whole,
/// each value has room, and at the device no value and no flag has changed.
///
/// Needed by `laws::sets_move` and the promises of assurance.md.
pub fn fetched_sets_are_the_devices()
    ensures { FetchedSetsAreTheDevices }
{}

/// A law of the definitions: what was fetched of one device is in force at another one of its
/// table, once it is restored there.
///
/// Needed by the promises of assurance.md.
pub fn sets_move()
    ensures { SetsMove }
{
    fetched_sets_are_the_devices();
    restored_sets_are_in_force();
}
