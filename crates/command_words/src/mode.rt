use crate::make_part::MakePart;
use crate::run_options::RunOptions;
use bson_value::Text;

/// What the program is asked to do.
#[derive(Debug, Drop)]
pub enum Mode {
    /// `run CLUSTER COMMAND`: runs the command of the second file over the cluster of the first.
    Run(Text, Text, RunOptions),
    /// `explain CLUSTER COMMAND`: prints the plan.
    Explain(Text, Text),
    /// `check CLUSTER COMMAND`: stops after the survey.
    Check(Text, Text),
    /// `make PART NUMBER COUNT`: writes one file of the workload with this number and count, which is from 1 to 100,000.
    Make(MakePart, u64, u32),
    /// `work NUMBER COUNT`: runs that workload in memory.
    Work(u64, u32, RunOptions),
}
