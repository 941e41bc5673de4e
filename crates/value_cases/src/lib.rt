//! Tables of cases of values: operators, dates, paths, the comparison order, keys, cluster files and shards.
#![tactic(auto)]

mod clusters;
mod dates;
mod keys;
mod operators;
mod order;
mod paths;
mod shards;

use case_notation::check_table;
use clusters::Clusters;
use dates::Dates;
use keys::Keys;
use operators::Operators;
use order::check_order;
use paths::Paths;
use shards::first_cluster;
use std::io;
use std::rt::Files;

/// Asks the crates of values each case of their tables, and prints how many there are and those that differ.
pub fn check_values(rt: &(impl Files + Print + AllocGlobal)) -> Result<(), io::Error> {
    check_table(rt, "operators.txt", &Operators)?;
    check_table(rt, "dates.txt", &Dates)?;
    check_table(rt, "paths.txt", &Paths)?;
    check_order(rt, "order.txt")?;
    check_table(rt, "keys.txt", &Keys)?;
    check_table(rt, "clusters.txt", &Clusters)?;
    match first_cluster(rt, "shards.txt")? {
        Some(shards) => check_table(rt, "shards.txt", &shards),
        None => println!(rt; "shards.txt: the first case gives no cluster"),
    }
}
