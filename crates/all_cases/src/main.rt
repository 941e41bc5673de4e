//! Asks the libraries each case of the tables in `data`, and prints for each table how many there are and those that
//! differ.
#![tactic(auto)]

use pipeline_cases::check_stages;
use query_cases::check_queries;
use std::io;
use value_cases::check_values;

fn main(rt: HostRuntime) -> Result<(), io::Error> {
    check_values(&rt)?;
    check_queries(&rt)?;
    check_stages(&rt)
}
