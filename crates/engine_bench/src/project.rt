//! A projection of computed fields over the documents of a file.

use bson_codec::{decode, encoded_len};
use bson_value::{Doc, Value};
use expr_eval::{Env, Names, eval};
use expr_read::read_expr;
use expr_tree::Expr;
use std::alloc::Global;
use std::rt::Files;
use std::{fs, io};

#[derive(Drop)]
struct Tally {
    docs: u64,
    bytes: u64,
}

// The length of what the expression makes of the document.
fn made_len(alloc: Global, expr: &Expr, doc: &Doc) -> Option<u64> {
    let env = Env {
        root: doc,
        names: Names::new(alloc),
    };
    match eval(alloc, expr, &env) {
        Ok(Some(Value::Doc(made))) => encoded_len(&made, u64::MAX),
        _ => None,
    }
}

fn project(alloc: Global, expr: &Expr, bytes: &[u8]) -> Option<Tally> {
    let mut docs = 0u64;
    let mut made = 0u64;
    let mut at = 0;
    for _ in 0..bytes.len() {
        if at == bytes.len() {
            break;
        }
        let (doc, end) = decode(alloc, bytes, at).ok()?;
        docs = docs.wrapping_add(1);
        made = made.wrapping_add(made_len(alloc, expr, &doc)?);
        at = end;
    }
    Some(Tally { docs, bytes: made })
}

fn spelled(alloc: Global, bytes: &[u8]) -> Option<Expr> {
    let (doc, _end) = decode(alloc, bytes, 0).ok()?;
    read_expr(alloc, &Value::Doc(doc)).ok()
}

/// Evaluates the expression that the first file spells on each document of the second, and prints how many documents
/// there were and how many bytes those have that it made.
pub fn run(
    rt: &(impl Files + Print + AllocGlobal),
    expression: &str,
    documents: &str,
) -> Result<(), io::Error> {
    let spelling = fs::read(rt, expression)?;
    let bytes = fs::read(rt, documents)?;
    let expr = spelled(rt.alloc(), spelling.as_slice());
    match expr.and_then(|expr| project(rt.alloc(), &expr, bytes.as_slice())) {
        Some(tally) => println!(rt; "{} documents, {} bytes", tally.docs, tally.bytes),
        None => println!(rt; "not made"),
    }
}
