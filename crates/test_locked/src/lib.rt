//! Tests of exporters under a lock that keep no history: threads that call, readers beside each other and beside a
//! writer, and an exporter that goes from one thread to many and back.
#![tactic(auto)]

#[cfg(test)]
mod asking;
#[cfg(test)]
mod beside;
#[cfg(test)]
mod bounding;
#[cfg(test)]
mod calling;
#[cfg(test)]
mod returning;
