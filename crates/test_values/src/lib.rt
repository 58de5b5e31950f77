//! Tests of what no line of the program reaches in values, strings of bytes, slices, formats and layouts: calls with ample
//! memory, generic calls at a concrete type, and tables of Python's answers.
#![tactic(auto)]

#[cfg(test)]
mod formats;
#[cfg(test)]
mod layouts;
#[cfg(test)]
mod queues;
#[cfg(test)]
mod slices;
#[cfg(test)]
mod strings;
#[cfg(test)]
mod telling;
#[cfg(test)]
mod values;
