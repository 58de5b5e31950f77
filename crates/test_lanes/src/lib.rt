//! Tests of bytes by lanes: each length from 0 to 200, from each of 16 places on, beside a loop over bytes.
#![tactic(auto)]

#[cfg(test)]
mod lengths;
#[cfg(test)]
mod plain;
