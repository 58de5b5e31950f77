//! Tests of what the program has not: a source and a sink that fail, bytes in place of devices,
//! sessions that wait for each other, and the users of the library.
#![tactic(auto)]

#[cfg(test)]
mod devices;
#[cfg(test)]
mod failing;
#[cfg(test)]
mod sharing;
#[cfg(test)]
mod users;
