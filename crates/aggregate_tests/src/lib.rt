//! Tests of whole calls, over files in memory: what a pipeline gives or fails with, each failing call of a device in turn,
//! and objects of other kinds than the program's.
#![tactic(auto)]

#[cfg(test)]
mod pipelines;
#[cfg(test)]
mod runs;
