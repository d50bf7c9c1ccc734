//! Tests of a device's parameters: the manager of a table, what it saves, and a device of both.
#![tactic(auto)]

#[cfg(test)]
mod devices;
#[cfg(test)]
mod managers;
#[cfg(test)]
mod saved;
#[cfg(test)]
mod slots;
