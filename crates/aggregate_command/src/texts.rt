//! The texts of refusals.

ghost use Rattle.std.specs.Prelude.{◌≡◌, IfOk, string_bytes};
ghost use Rattle.aggregate_command.specs.Line.{bson_text, bytes_text, command_text, cluster_text, shard_text, code_text, command_line, cluster_line, shard_line, failure_line};

use bson_value::{BadBson, BadWhy, EvalCode, Failure};
use chunk_map::{BadCluster, ClusterWhy};
use orphan_filter::{BadShard, ShardWhy};
use stage_tree::{BadCommand, CommandWhy};
use std::alloc::{AllocError, Global};

fn bson_text(alloc: Global, why: BadWhy) -> Result<String, AllocError>
    ensures { IfOk result (λ text. string_bytes text ≡ bson_text why) }
{
    match why {
        BadWhy::Truncated => String::from_str(alloc, "Truncated"),
        BadWhy::BadLength => String::from_str(alloc, "BadLength"),
        BadWhy::TypeRefused(kind) => format!(in alloc; "TypeRefused {kind}"),
        BadWhy::NotText => String::from_str(alloc, "NotText"),
        BadWhy::BadFlag => String::from_str(alloc, "BadFlag"),
        BadWhy::ArrayName => String::from_str(alloc, "ArrayName"),
        BadWhy::TwiceNamed => String::from_str(alloc, "TwiceNamed"),
        BadWhy::TooDeep => String::from_str(alloc, "TooDeep"),
        BadWhy::TooLong => String::from_str(alloc, "TooLong"),
    }
}

fn bytes_text(alloc: Global, bad: BadBson) -> Result<String, AllocError>
    ensures { IfOk result (λ text. string_bytes text ≡ bytes_text bad) }
{
    let at = bad.at;
    let why = bson_text(alloc, bad.why)?;
    let why = why.as_str();
    format!(in alloc; "Bytes at {at}: {why}")
}

fn command_text(alloc: Global, why: CommandWhy) -> Result<String, AllocError>
    ensures { IfOk result (λ text. string_bytes text ≡ command_text why) }
{
    match why {
        CommandWhy::Bytes(bad) => bytes_text(alloc, bad),
        CommandWhy::Trailing(at) => format!(in alloc; "Trailing {at}"),
        CommandWhy::Form => String::from_str(alloc, "Form"),
        CommandWhy::Stages => String::from_str(alloc, "Stages"),
        CommandWhy::StaticDepth => String::from_str(alloc, "StaticDepth"),
        CommandWhy::IntoInCluster => String::from_str(alloc, "IntoInCluster"),
    }
}

fn cluster_text(alloc: Global, why: ClusterWhy) -> Result<String, AllocError>
    ensures { IfOk result (λ text. string_bytes text ≡ cluster_text why) }
{
    match why {
        ClusterWhy::Bytes(bad) => bytes_text(alloc, bad),
        ClusterWhy::Trailing(at) => format!(in alloc; "Trailing {at}"),
        ClusterWhy::Form => String::from_str(alloc, "Form"),
        ClusterWhy::TwiceNamed => String::from_str(alloc, "TwiceNamed"),
        ClusterWhy::Range => String::from_str(alloc, "Range"),
        ClusterWhy::Shard => String::from_str(alloc, "Shard"),
    }
}

fn shard_text(alloc: Global, why: ShardWhy) -> Result<String, AllocError>
    ensures { IfOk result (λ text. string_bytes text ≡ shard_text why) }
{
    match why {
        ShardWhy::Bson(why) => bson_text(alloc, why),
        ShardWhy::ArrayInKey(part) => format!(in alloc; "ArrayInKey {part}"),
    }
}

fn code_text(code: EvalCode) -> &'static str
    ensures { result.now ≡ code_text code }
{
    match code {
        EvalCode::WrongType => "WrongType",
        EvalCode::Overflow => "Overflow",
        EvalCode::ZeroDivisor => "ZeroDivisor",
        EvalCode::NotArray => "NotArray",
        EvalCode::BadCount => "BadCount",
        EvalCode::NoBranch => "NoBranch",
        EvalCode::DateRange => "DateRange",
        EvalCode::NotDocument => "NotDocument",
        EvalCode::BadName => "BadName",
        EvalCode::BadConversion => "BadConversion",
        EvalCode::RangeTooLong => "RangeTooLong",
        EvalCode::NestTooDeep => "NestTooDeep",
        EvalCode::ResultTooLong => "ResultTooLong",
        EvalCode::ResultTooDeep => "ResultTooDeep",
        EvalCode::MissingId => "MissingId",
        EvalCode::Matched => "Matched",
        EvalCode::NotMatched => "NotMatched",
    }
}

/// The line of a refused command.
pub fn command_line(alloc: Global, bad: BadCommand) -> Result<String, AllocError>
    ensures { IfOk result (λ line. string_bytes line ≡ command_line bad) }
{
    let stage = bad.stage;
    let why = command_text(alloc, bad.why)?;
    let why = why.as_str();
    format!(in alloc; "error: command stage {stage}: {why}\n")
}

/// The line of a refused cluster file.
pub fn cluster_line(alloc: Global, bad: BadCluster) -> Result<String, AllocError>
    ensures { IfOk result (λ line. string_bytes line ≡ cluster_line bad) }
{
    let collection = bad.collection;
    let chunk = bad.chunk;
    let why = cluster_text(alloc, bad.why)?;
    let why = why.as_str();
    format!(in alloc; "error: cluster collection {collection} chunk {chunk}: {why}\n")
}

/// The line of a bad record.
pub fn shard_line(alloc: Global, bad: &BadShard) -> Result<String, AllocError>
    ensures { IfOk result (λ line. string_bytes line ≡ shard_line bad.now) }
{
    let collection = bad.collection.as_str();
    let shard = bad.shard.as_str();
    let number = bad.number;
    let at = bad.at;
    let why = shard_text(alloc, bad.why)?;
    let why = why.as_str();
    format!(in alloc; "error: shard {collection}/{shard} record {number} at {at}: {why}\n")
}

/// The line of a stage that failed.
pub fn failure_line(alloc: Global, failure: Failure) -> Result<String, AllocError>
    ensures { IfOk result (λ line. string_bytes line ≡ failure_line failure) }
{
    let stage = failure.stage;
    let number = failure.code.number();
    let name = code_text(failure.code);
    format!(in alloc; "error: evaluation stage {stage} code {number} {name}\n")
}
