//! Tests of the calls of objects, buffers, borrows, exporters, shared exporters and tables that no line of the program
//! makes.
#![tactic(auto)]

#[cfg(test)]
mod answers;
#[cfg(test)]
mod appending;
#[cfg(test)]
mod asking;
#[cfg(test)]
mod borrows;
#[cfg(test)]
mod buffers;
#[cfg(test)]
mod byte_arrays;
#[cfg(test)]
mod byte_strings;
#[cfg(test)]
mod described;
#[cfg(test)]
mod exporters;
#[cfg(test)]
mod handing;
#[cfg(test)]
mod logging;
#[cfg(test)]
mod meetings;
#[cfg(test)]
mod records;
#[cfg(test)]
mod view_methods;
