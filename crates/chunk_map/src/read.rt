//! Reading of cluster files.

ghost use Rattle.std.specs.Prelude.{◌≡◌, ◌+◌, ◌≤◌, ◌++◌, ◌∷◌, [], length, Ok, Some, None, IfOk, IfErr, OnOk, MatchResult, vec_len};
ghost use Rattle.std.specs.List.{AllByRecursion};
ghost use Rattle.bson_codec.specs.Records.{document_of};
ghost use Rattle.bson_value.specs.View.{tree_of};
ghost use Rattle.chunk_map.specs.Table.{CollectionRow, Table};
ghost use Rattle.chunk_map.specs.Form.{Answer, row_then, collection_of, collection_fault, Reads, Refuses, table_of, rows, rows_checked, collections_in, cluster_of, checked, table};
ghost use Rattle.chunk_map.specs.Named.{HasSeen};
ghost use Rattle.chunk_map.specs.Sound.{AreGood};

use crate::collection_form::read_collection;
use crate::fields::collections_in;
use crate::named::Seen;
use crate::ranges::chunks_fault;
use crate::written::Written;
use crate::{BadCluster, Cluster, ClusterError, ClusterWhy, Collection};
use bson_codec::{DecodeError, decode, document_is};
use bson_value::{Doc, List, NoMemory, Value};
use std::alloc::Global;

fn refuse(collection: u32, chunk: u32, why: ClusterWhy) -> ClusterError
    ensures { result ≡ ClusterError.Bad (record { collection = collection; chunk = chunk; why = why }) }
{
    ClusterError::Bad(BadCluster {
        collection,
        chunk,
        why,
    })
}

// The document that a file is.
fn read_document(alloc: Global, bytes: &[u8]) -> Result<Doc, ClusterError>
    ensures { MatchResult result (λ d. document_of bytes.now ≡ Ok d) (λ e. Refuses e (table_of (document_of bytes.now))) }
{
    document_is(bytes);
    match decode(alloc, bytes, 0) {
        Ok((doc, end)) => {
            if end < bytes.len() {
                return Err(refuse(0, 0, ClusterWhy::Trailing(end)));
            }
            Ok(doc)
        }
        Err(DecodeError::Bad(bad)) => Err(refuse(0, 0, ClusterWhy::Bytes(bad))),
        Err(DecodeError::Memory) => Err(ClusterError::Memory),
    }
}

fn keep(rows: &mut Vec<Written>, row: Written) -> Result<(), NoMemory>
    ensures items { OnOk result (rows.new.items ≡ rows.old.items ++ row ∷ []) }
    ensures len { OnOk result (vec_len rows.new ≡ vec_len rows.old + 1) }
{
    rows.push(row)?;
    Ok(())
}

fn read_row(alloc: Global, number: u32, value: &Value) -> Result<Written, ClusterError>
    ensures ok { IfOk result (λ c. collection_of (tree_of value.now) ≡ Some c) }
    ensures refused { IfErr result (λ e. (next : CollectionRow → Answer) → Refuses e (row_then number (collection_of (tree_of value.now)) next)) }
{
    match read_collection(alloc, value) {
        Ok(Some(row)) => Ok(row),
        Ok(None) => Err(refuse(number, 0, ClusterWhy::Form)),
        Err(_) => Err(ClusterError::Memory),
    }
}

fn read_rows(alloc: Global, list: &List) -> Result<Vec<Written>, ClusterError>
    requires { length list.now ≤ 100 }
    ensures table { MatchResult result (λ v. rows 1 [] list.now ≡ Ok v.items) (λ e. Refuses e (rows 1 [] list.now)) }
    ensures few { IfOk result (λ v. vec_len v ≤ 100) }
{
    let mut rows = Vec::new(alloc);
    for i in 0..list.len() {
        let row = match read_row(alloc, i as u32 + 1, list.value(i)) {
            Ok(row) => row,
            Err(e) => return Err(e),
        };
        keep(&mut rows, row)?;
    }
    Ok(rows)
}

// What is wrong with a collection: a name that stood before, or else its first faulty chunk.
#[tactic(auto, unfolding(crate::specs::Form::collection_fault))]
fn fault_of<'a>(
    alloc: Global,
    seen: &mut Seen<'a>,
    row: &'a Written,
) -> Result<Option<(u32, ClusterWhy)>, NoMemory>
    ensures fault { (before : Table) → HasSeen seen.old before → IfOk result (λ fault. fault ≡ collection_fault before row.now) }
    ensures seen { (before : Table) → HasSeen seen.old before → IfOk result (λ fault. fault ≡ None → HasSeen seen.new (before ++ row.now ∷ [])) }
{
    if seen.is_twice_named(alloc, row)? {
        return Ok(Some((0, ClusterWhy::TwiceNamed)));
    }
    row.known();
    Ok(chunks_fault(row.shards().len(), row.chunks()))
}

// Nothing is wrong with any of the collections.
fn check_rows(alloc: Global, rows: &[Written]) -> Result<(), ClusterError>
    requires { length rows.now ≤ 100 }
    ensures { MatchResult result (λ _. checked 1 [] rows.now ≡ Ok rows.now) (λ e. Refuses e (checked 1 [] rows.now)) }
{
    let mut seen = Seen::new(alloc);
    for i in 0..rows.len() {
        match fault_of(alloc, &mut seen, &rows[i]) {
            Ok(None) => {}
            Ok(Some((chunk, why))) => return Err(refuse(i as u32 + 1, chunk, why)),
            Err(_) => return Err(ClusterError::Memory),
        }
    }
    Ok(())
}

// The collections, of which nothing is wrong.
fn make_collections(alloc: Global, rows: Vec<Written>) -> Result<Vec<Collection>, NoMemory>
    requires { AllByRecursion (λ c. AreGood (length c.shards) None c.chunks []) rows.items }
    ensures { IfOk result (λ v. v.items ≡ rows.items) }
{
    let mut collections = Vec::new(alloc);
    let mut left = rows.into_iter();
    'rows: loop {
        match left.next() {
            Some(row) => collections.push(row.into_collection())?,
            None => return Ok(collections),
        }
    }
}

fn read_cluster_of(alloc: Global, list: &List) -> Result<Cluster, ClusterError>
    requires { length list.now ≤ 100 }
    ensures { Reads result (rows_checked (rows 1 [] list.now)) }
{
    let rows = match read_rows(alloc, list) {
        Ok(rows) => rows,
        Err(e) => return Err(e),
    };
    match check_rows(alloc, rows.as_slice()) {
        Ok(()) => {}
        Err(e) => return Err(e),
    }
    match make_collections(alloc, rows) {
        Ok(collections) => Ok(Cluster::new(collections)),
        Err(_) => Err(ClusterError::Memory),
    }
}

fn read_table(alloc: Global, doc: &Doc) -> Result<Cluster, ClusterError>
    ensures { Reads result (cluster_of (collections_in doc.now)) }
{
    match collections_in(doc) {
        Some(list) => read_cluster_of(alloc, list),
        None => Err(refuse(0, 0, ClusterWhy::Form)),
    }
}

/// The routing table of a cluster file. A file that spells none is refused, with the first fault: of the file's
/// bytes, of the first collection of another shape, of the first collection that has a name which stood before or a
/// chunk whose range doesn't follow or whose shard isn't listed.
#[tactic(auto, unfolding(crate::specs::Form::table))]
pub fn read_cluster(alloc: Global, bytes: &[u8]) -> Result<Cluster, ClusterError>
    ensures { Reads result (table bytes.now) }
{
    match read_document(alloc, bytes) {
        Ok(doc) => read_table(alloc, &doc),
        Err(e) => Err(e),
    }
}
