//! Tests of the judge: random captures that a device by the rules brings over a lossy line, one lie
//! for each reason, and which kind of device it must be. What a splitter makes of the octets of a
//! decoder. A run of a master by the rules, and the shortest list of calls for each of its faults.
//!
//! They stand here, and not beside the code that they call, since a crate with
//! tests of its own is proved twice.
#![tactic(auto)]

#[cfg(test)]
mod honest;
#[cfg(test)]
mod kinds;
#[cfg(test)]
mod lies;
#[cfg(test)]
mod ports;
#[cfg(test)]
mod splits;
#[cfg(test)]
mod transfers;
#[cfg(test)]
mod watches;
