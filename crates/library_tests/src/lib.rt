//! Tests of the libraries' public calls: each on its happy path, and what no contract says.
#![tactic(auto)]

#[cfg(test)]
mod blocks;
#[cfg(test)]
mod codec;
#[cfg(test)]
mod command_line;
#[cfg(test)]
mod merging;
#[cfg(test)]
mod owned_documents;
#[cfg(test)]
mod ports;
#[cfg(test)]
mod values;
