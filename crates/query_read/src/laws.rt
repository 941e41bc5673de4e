//! What the reading of documents is, said from outside. The functions here do nothing: each is its contract.

ghost use Rattle.std.specs.Prelude.{◌≡◌, Bool, Some};
ghost use Rattle.expr_tree.specs.QueryNode.{QueryNode};
ghost use Rattle.query_read.specs.Reading.{query_reading};
ghost use Rattle.query_read.specs.Written.{Fields, SpellsQuery};

/// A document is read as what it spells, and each query that it spells is what it is read as. The flag says whether
/// `$expr` may stand in it.
pub fn spelling()
    ensures found { (exprs : Bool) (ps : Fields) (q : QueryNode) → query_reading exprs ps ≡ Some q → SpellsQuery exprs ps q }
    ensures only { (exprs : Bool) (ps : Fields) (q : QueryNode) → SpellsQuery exprs ps q → query_reading exprs ps ≡ Some q }
{}

/// At most one query belongs to a document.
pub fn one_query()
    ensures { (exprs : Bool) (ps : Fields) (p q : QueryNode) → SpellsQuery exprs ps p → SpellsQuery exprs ps q → p ≡ q }
{}
