//! Tests of the libraries through their public functions alone. The module `texts` tests what the
//! program `dwcheck` writes. The module `examples` has proved code that calls the libraries.
#![tactic(auto)]

#[cfg(test)]
mod bytes;
#[cfg(test)]
mod certificates;
pub mod examples;
#[cfg(test)]
mod in_place;
#[cfg(test)]
mod inputs;
#[cfg(test)]
mod look_ups;
#[cfg(test)]
mod refused_memory;
#[cfg(test)]
mod texts;
