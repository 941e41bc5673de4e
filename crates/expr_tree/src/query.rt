//! Queries and tests. They hold each other, so they are declared together.

ghost use Rattle.std.specs.Prelude.{◌≡◌, ◌<◌, ◌++◌, ◌∷◌, [], Some, length, slice_get, IfOk, OnOk, OnErr, MatchOption, map};
ghost use Rattle.expr_tree.specs.QueryView.{query_of, test_of};

use crate::expr::Expr;
use bson_value::{List, NoMemory, Path, Value};
use std::alloc::Global;
use std::marker::Model;
use std::vec;

/// A query: a condition on a document (the manual, Query and Projection Operators).
#[cycle(query)]
#[derive(Debug, Drop)]
pub enum Query {
    /// `$and`, and the parts of a query document: each holds.
    And(Queries),
    /// `$or`: one of them holds.
    Or(Queries),
    /// `$nor`: none of them holds.
    Nor(Queries),
    /// A test of what a path ends at.
    Test(Path, Test),
    /// `$expr`: the value of the expression counts as true.
    Expr(Expr),
}

/// A test of what a path ends at in a document.
#[cycle(query)]
#[derive(Debug, Drop)]
pub enum Test {
    /// `$eq`, and a value without an operator.
    Eq(Value),
    /// `$ne`
    Ne(Value),
    /// `$gt`
    Gt(Value),
    /// `$gte`
    Gte(Value),
    /// `$lt`
    Lt(Value),
    /// `$lte`
    Lte(Value),
    /// `$in`
    Among(List),
    /// `$nin`
    NotAmong(List),
    /// `$exists`
    Exists(bool),
    /// `$type`: the type's BSON number, 255 for MinKey.
    Kind(u8),
    /// `$size`
    Size(u64),
    /// `$all`
    All(List),
    /// `$elemMatch` with a query for elements that are documents.
    Elem(SubQuery),
    /// `$elemMatch` with tests of the element itself.
    ElemTests(Tests),
    /// `$not`: not all of the tests hold.
    Not(Tests),
}

/// One query within another.
#[cycle(query)]
#[derive(Debug, Drop)]
pub struct SubQuery {
    query: Box<Query>,
}

impl Model for SubQuery {
    ghost use Rattle.expr_tree.specs.QueryNode.{QueryNode, query_size};
    ghost use Rattle.expr_tree.specs.QueryCode.{query_code};

    ghost Value = { QueryNode };

    ghost coded = { query_code };

    ghost use Rattle.expr_tree.specs.QueryView.{query_of};

    ghost view = { λ q. query_of q.query.value };

    ghost size = { query_size };

    ghost use Rattle.std.proofs.Common.{arith};
    ghost use Rattle.expr_tree.specs.QueryFalls.{query_deep};

    ghost size_decreases = { λ a h. omega (arith, query_deep a.query.value) };
}

/// A list of queries.
#[cycle(query)]
#[derive(Debug, Drop)]
pub struct Queries {
    queries: Vec<Query>,
}

impl Model for Queries {
    ghost use Rattle.std.specs.Prelude.{List, map};
    ghost use Rattle.std.specs.Coded.{coded_list};
    ghost use Rattle.expr_tree.specs.QueryNode.{QueryNode, queries_of, queries_size};
    ghost use Rattle.expr_tree.specs.QueryCode.{query_code};

    ghost Value = { List QueryNode };

    ghost coded = { coded_list query_code };

    ghost use Rattle.expr_tree.specs.QueryView.{query_of};

    ghost view = { λ q. map query_of q.queries.items };

    ghost size = { λ qs. queries_size (queries_of qs) };

    ghost use Rattle.std.proofs.Common.{arith};
    ghost use Rattle.expr_tree.specs.QueryFalls.{queries_fall};

    ghost size_decreases = { λ a h. omega (arith, queries_fall a.queries.items) };
}

/// A list of tests.
#[cycle(query)]
#[derive(Debug, Drop)]
pub struct Tests {
    tests: Vec<Test>,
}

impl Model for Tests {
    ghost use Rattle.std.specs.Prelude.{List, map};
    ghost use Rattle.std.specs.Coded.{coded_list};
    ghost use Rattle.expr_tree.specs.QueryNode.{QueryNode, queries_of, queries_size};
    ghost use Rattle.expr_tree.specs.QueryCode.{query_code};

    ghost Value = { List QueryNode };

    ghost coded = { coded_list query_code };

    ghost use Rattle.expr_tree.specs.QueryView.{test_of};

    ghost view = { λ t. map test_of t.tests.items };

    ghost size = { λ ts. queries_size (queries_of ts) };

    ghost use Rattle.std.proofs.Common.{arith};
    ghost use Rattle.expr_tree.specs.QueryFalls.{tests_fall};

    ghost size_decreases = { λ a h. omega (arith, tests_fall a.tests.items) };
}

impl SubQuery {
    /// A part that is the query.
    pub fn new(alloc: Global, query: Query) -> Result<SubQuery, NoMemory>
        ensures { IfOk result (λ q. q ≡ query_of query) }
    {
        Ok(SubQuery {
            query: Box::new(alloc, query)?,
        })
    }

    /// The query.
    pub fn query(&self) -> &Query
        ensures { query_of result.now ≡ self.now }
    {
        &self.query
    }
}

impl Queries {
    /// An empty list.
    pub fn new(alloc: Global) -> Queries
        ensures { result ≡ [] }
    {
        Queries {
            queries: Vec::new(alloc),
        }
    }

    /// The number of queries.
    pub fn len(&self) -> usize
        ensures { result ≡ length self.now }
    {
        self.queries.len()
    }

    /// The query at that place.
    pub fn get(&self, i: usize) -> &Query
        requires { i < length self.now }
        ensures { slice_get self.now i ≡ Some (query_of result.now) }
    {
        &self.queries[i]
    }

    /// All queries, in order.
    pub fn queries(&self) -> &[Query]
        ensures { map query_of result.now ≡ self.now }
    {
        self.queries.as_slice()
    }

    /// Appends the query. A refusal changes nothing.
    pub fn add(&mut self, query: Query) -> Result<(), NoMemory>
        ensures ok { OnOk result (self.new ≡ self.old ++ query_of query ∷ []) }
        ensures err { OnErr result (self.new ≡ self.old) }
    {
        self.queries.push(query)?;
        Ok(())
    }

    /// The queries, to be moved out one after another.
    pub fn into_queries(self) -> QueryItems
        ensures { result ≡ self }
    {
        QueryItems {
            queries: self.queries.into_iter(),
        }
    }
}

/// The queries of a list that are still to be given, in their order.
#[derive(Drop)]
pub struct QueryItems {
    queries: vec::IntoIter<Query>,
}

impl Model for QueryItems {
    ghost use Rattle.std.specs.Prelude.{List, map};
    ghost use Rattle.std.specs.Vec.Iter.{into_iter_items};
    ghost use Rattle.std.specs.Coded.{coded_list};
    ghost use Rattle.expr_tree.specs.QueryNode.{QueryNode};
    ghost use Rattle.expr_tree.specs.QueryCode.{query_code};
    ghost use Rattle.expr_tree.specs.QueryView.{query_of};

    ghost Value = { List QueryNode };

    ghost coded = { coded_list query_code };

    ghost view = { λ q. map query_of (into_iter_items q.queries) };
}

impl QueryItems {
    /// The next query. None exactly where all were given.
    pub fn next(&mut self) -> Option<Query>
        ensures { MatchOption result ((self.old ≡ []) × (self.new ≡ [])) (λ q. self.old ≡ query_of q ∷ self.new) }
    {
        self.queries.next()
    }
}

impl Tests {
    /// An empty list.
    pub fn new(alloc: Global) -> Tests
        ensures { result ≡ [] }
    {
        Tests {
            tests: Vec::new(alloc),
        }
    }

    /// The number of tests.
    pub fn len(&self) -> usize
        ensures { result ≡ length self.now }
    {
        self.tests.len()
    }

    /// The test at that place.
    pub fn get(&self, i: usize) -> &Test
        requires { i < length self.now }
        ensures { slice_get self.now i ≡ Some (test_of result.now) }
    {
        &self.tests[i]
    }

    /// All tests, in order.
    pub fn tests(&self) -> &[Test]
        ensures { map test_of result.now ≡ self.now }
    {
        self.tests.as_slice()
    }

    /// Appends the test. A refusal changes nothing.
    pub fn add(&mut self, test: Test) -> Result<(), NoMemory>
        ensures ok { OnOk result (self.new ≡ self.old ++ test_of test ∷ []) }
        ensures err { OnErr result (self.new ≡ self.old) }
    {
        self.tests.push(test)?;
        Ok(())
    }
}

impl Query {
    /// An equal query. It calls itself once for each level of nesting.
    #[cycle(copy_query)]
    pub fn copy(&self, alloc: Global) -> Result<Query, NoMemory>
        ensures { IfOk result (λ q. q ≡ self.now) }
    {
        match self {
            Query::And(queries) => Ok(Query::And(queries.copy(alloc)?)),
            Query::Or(queries) => Ok(Query::Or(queries.copy(alloc)?)),
            Query::Nor(queries) => Ok(Query::Nor(queries.copy(alloc)?)),
            Query::Test(path, test) => Ok(Query::Test(path.copy(alloc)?, test.copy(alloc)?)),
            Query::Expr(expr) => Ok(Query::Expr(expr.copy(alloc)?)),
        }
    }
}

impl Test {
    /// An equal test.
    #[cycle(copy_query)]
    pub fn copy(&self, alloc: Global) -> Result<Test, NoMemory>
        ensures { IfOk result (λ t. t ≡ self.now) }
    {
        match self {
            Test::Eq(value) => Ok(Test::Eq(value.copy(alloc)?)),
            Test::Ne(value) => Ok(Test::Ne(value.copy(alloc)?)),
            Test::Gt(value) => Ok(Test::Gt(value.copy(alloc)?)),
            Test::Gte(value) => Ok(Test::Gte(value.copy(alloc)?)),
            Test::Lt(value) => Ok(Test::Lt(value.copy(alloc)?)),
            Test::Lte(value) => Ok(Test::Lte(value.copy(alloc)?)),
            Test::Among(values) => Ok(Test::Among(values.copy(alloc)?)),
            Test::NotAmong(values) => Ok(Test::NotAmong(values.copy(alloc)?)),
            Test::Exists(flag) => Ok(Test::Exists(*flag)),
            Test::Kind(number) => Ok(Test::Kind(*number)),
            Test::Size(number) => Ok(Test::Size(*number)),
            Test::All(values) => Ok(Test::All(values.copy(alloc)?)),
            Test::Elem(query) => Ok(Test::Elem(query.copy(alloc)?)),
            Test::ElemTests(tests) => Ok(Test::ElemTests(tests.copy(alloc)?)),
            Test::Not(tests) => Ok(Test::Not(tests.copy(alloc)?)),
        }
    }
}

impl SubQuery {
    /// An equal part.
    #[cycle(copy_query)]
    pub fn copy(&self, alloc: Global) -> Result<SubQuery, NoMemory>
        ensures { IfOk result (λ q. q ≡ self.now) }
    {
        Ok(SubQuery {
            query: Box::new(alloc, self.query.copy(alloc)?)?,
        })
    }
}

impl Queries {
    /// An equal list.
    #[cycle(copy_query)]
    pub fn copy(&self, alloc: Global) -> Result<Queries, NoMemory>
        ensures { IfOk result (λ q. q ≡ self.now) }
    {
        let mut queries = Vec::new(alloc);
        for query in &self.queries {
            queries.push(query.copy(alloc)?)?;
        }
        Ok(Queries { queries })
    }
}

impl Tests {
    /// An equal list.
    #[cycle(copy_query)]
    pub fn copy(&self, alloc: Global) -> Result<Tests, NoMemory>
        ensures { IfOk result (λ t. t ≡ self.now) }
    {
        let mut tests = Vec::new(alloc);
        for test in &self.tests {
            tests.push(test.copy(alloc)?)?;
        }
        Ok(Tests { tests })
    }
}
