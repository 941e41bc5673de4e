//! Tables of cases of stages: their forms, commands, limits, pipelines and plans.
#![tactic(auto)]

mod chains;
mod commands;
mod fields;
mod forms;
mod limits;
mod outline;
mod plan;

use case_notation::check_table;
use chains::{Pipelines, Plans};
use commands::Commands;
use forms::{JoiningStages, PlainStages};
use limits::Limits;
use std::io;
use std::rt::Files;

/// Asks the crates of stages each case of their tables, and prints how many there are and those that differ.
pub fn check_stages(rt: &(impl Files + Print + AllocGlobal)) -> Result<(), io::Error> {
    check_table(rt, "stage_forms.txt", &PlainStages)?;
    check_table(rt, "join_forms.txt", &JoiningStages)?;
    check_table(rt, "commands.txt", &Commands)?;
    check_table(rt, "limits.txt", &Limits)?;
    check_table(rt, "pipelines.txt", &Pipelines)?;
    check_table(rt, "plans.txt", &Plans)
}
