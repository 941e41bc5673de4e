//! Expressions. They hold each other, so they are declared together.

ghost use Rattle.std.specs.Prelude.{◌≡◌, ◌<◌, ◌++◌, ◌∷◌, [], Some, length, slice_get, IfOk, OnOk, OnErr, map};
ghost use Rattle.std.specs.Option.{option_map};
ghost use Rattle.expr_tree.specs.View.{node_of, branches_in};

use bson_value::{Name, NoMemory, Op, Part, Path, Text, Unit, Value};
use std::alloc::Global;
use std::marker::Model;

/// An expression (the manual, Aggregation Expressions).
#[cycle(expr)]
#[derive(Debug, Drop)]
pub enum Expr {
    /// A value itself: `{$literal: v}`, or a value that spells no other expression.
    Literal(Value),
    /// `"$a.b"`: what the path reaches in the document.
    Field(Path),
    /// `"$$ROOT"` or `"$$CURRENT"`, the document, or what a path reaches in it.
    Root(Option<Path>),
    /// `"$$x"`: what the name is bound to, or what a path reaches in that.
    Var(Text, Option<Path>),
    /// `"$$REMOVE"`, which is missing.
    Remove,
    /// A document of computed fields, without those that are missing.
    Make(NamedExprs),
    /// An array of computed items, missing ones as null.
    MakeList(Exprs),
    /// An operator on the values of its operands.
    Apply(Op, Exprs),
    /// `$and`: from the left until one counts as false.
    And(Exprs),
    /// `$or`: from the left until one counts as true.
    Or(Exprs),
    /// `$cond`: the condition, and the values where it counts as true and where it does not.
    Cond(Operand, Operand, Operand),
    /// `$ifNull`: the first that is neither null nor missing, else the last.
    IfNull(Exprs),
    /// `$switch`: the value of the first branch whose case counts as true, else the default.
    Switch(Branches, Option<Operand>),
    /// `$let`: the body, with more names bound.
    Let(Bindings, Operand),
    /// `$map`: the input, the name of an element, and the body, whose values make the array.
    Map(Operand, Text, Operand),
    /// `$filter`: the input, the name of an element, and the condition of the elements that stay.
    Filter(Operand, Text, Operand),
    /// `$reduce`: the input, the initial value, and the body with `$$value` and `$$this`.
    Reduce(Operand, Operand, Operand),
    /// `$year` to `$millisecond`.
    DatePart(Part, Operand),
    /// `$dateAdd`, and `$dateSubtract` where the flag is true: the date, the unit and the amount.
    DateAdd(Operand, Unit, Operand, bool),
    /// `$dateDiff`: the boundaries of the unit from the first date to the second.
    DateDiff(Operand, Operand, Unit),
    /// `$dateTrunc`: the date with which the unit begins.
    DateTrunc(Operand, Unit),
}

/// One expression within another.
#[cycle(expr)]
#[derive(Debug, Drop)]
pub struct Operand {
    expr: Box<Expr>,
}

impl Model for Operand {
    ghost use Rattle.expr_tree.specs.Node.{Node, node_size};
    ghost use Rattle.expr_tree.specs.Code.{node_code};

    ghost Value = { Node };

    ghost coded = { node_code };

    ghost use Rattle.expr_tree.specs.View.{node_of};

    ghost view = { λ o. node_of o.expr.value };

    ghost size = { node_size };

    ghost use Rattle.std.proofs.Common.{arith};
    ghost use Rattle.expr_tree.specs.Falls.{deep_le-node_size};

    ghost size_decreases = { λ a h. omega (arith, deep_le-node_size a.expr.value) };
}

/// A list of expressions.
#[cycle(expr)]
#[derive(Debug, Drop)]
pub struct Exprs {
    exprs: Vec<Expr>,
}

impl Model for Exprs {
    ghost use Rattle.std.specs.Prelude.{List, map};
    ghost use Rattle.std.specs.Coded.{coded_list};
    ghost use Rattle.expr_tree.specs.Node.{Node, nodes_of, nodes_size};
    ghost use Rattle.expr_tree.specs.Code.{node_code};

    ghost Value = { List Node };

    ghost coded = { coded_list node_code };

    ghost use Rattle.expr_tree.specs.View.{node_of};

    ghost view = { λ e. map node_of e.exprs.items };

    ghost size = { λ ns. nodes_size (nodes_of ns) };

    ghost use Rattle.std.proofs.Common.{arith};
    ghost use Rattle.expr_tree.specs.Falls.{exprs_fall};

    ghost size_decreases = { λ a h. omega (arith, exprs_fall a.exprs.items) };
}

/// The fields of a made document: names, in the order in which they are computed, each with its expression. Seen as
/// the list of names and the list of expressions, which have the same length.
#[cycle(expr)]
#[derive(Debug, Drop)]
pub struct NamedExprs {
    names: Vec<Name>,
    exprs: Vec<Expr>,
}

impl Model for NamedExprs {
    ghost use Rattle.std.specs.Prelude.{◌≡◌, List, ℕ, map, length};
    ghost use Rattle.std.specs.Coded.{coded_list, coded×, coded_ℕ};
    ghost use Rattle.expr_tree.specs.Node.{Node, nodes_of, nodes_size};
    ghost use Rattle.expr_tree.specs.Code.{node_code};

    ghost Value = { List (List ℕ) × List Node };

    ghost coded = { coded× (coded_list (coded_list coded_ℕ)) (coded_list node_code) };

    ghost use Rattle.expr_tree.specs.View.{node_of};

    ghost view = { λ f. (f.names.items, map node_of f.exprs.items) };

    ghost invariant = { λ f. length f.names.items ≡ length f.exprs.items };

    ghost size = { λ f. nodes_size (nodes_of f.1) };

    ghost use Rattle.std.proofs.Common.{arith};
    ghost use Rattle.expr_tree.specs.Falls.{exprs_fall};

    ghost size_decreases = { λ a h. omega (arith, exprs_fall a.exprs.items) };
}

/// The variables of a `$let`, each with its expression, in order. Seen as the list of names and the list of
/// expressions, which have the same length.
#[cycle(expr)]
#[derive(Debug, Drop)]
pub struct Bindings {
    names: Vec<Text>,
    exprs: Vec<Expr>,
}

impl Model for Bindings {
    ghost use Rattle.std.specs.Prelude.{◌≡◌, List, ℕ, map, length};
    ghost use Rattle.std.specs.Coded.{coded_list, coded×, coded_ℕ};
    ghost use Rattle.expr_tree.specs.Node.{Node, nodes_of, nodes_size};
    ghost use Rattle.expr_tree.specs.Code.{node_code};

    ghost Value = { List (List ℕ) × List Node };

    ghost coded = { coded× (coded_list (coded_list coded_ℕ)) (coded_list node_code) };

    ghost use Rattle.expr_tree.specs.View.{node_of};

    ghost view = { λ f. (f.names.items, map node_of f.exprs.items) };

    ghost invariant = { λ f. length f.names.items ≡ length f.exprs.items };

    ghost size = { λ f. nodes_size (nodes_of f.1) };

    ghost use Rattle.std.proofs.Common.{arith};
    ghost use Rattle.expr_tree.specs.Falls.{exprs_fall};

    ghost size_decreases = { λ a h. omega (arith, exprs_fall a.exprs.items) };
}

/// The branches of a `$switch`: pairs of a case and the value that it gives.
#[cycle(expr)]
#[derive(Debug, Drop)]
pub struct Branches {
    branches: Vec<(Expr, Expr)>,
}

impl Model for Branches {
    ghost use Rattle.std.specs.Prelude.{List};
    ghost use Rattle.std.specs.Coded.{coded_list, coded×};
    ghost use Rattle.expr_tree.specs.Node.{Node, no_nodes, branch_nodes, nodes_size};
    ghost use Rattle.expr_tree.specs.Code.{node_code};

    ghost Value = { List (Node × Node) };

    ghost coded = { coded_list (coded× node_code node_code) };

    ghost use Rattle.expr_tree.specs.View.{branches_in};

    ghost view = { λ b. branches_in b.branches.items };

    ghost size = { λ bs. nodes_size (branch_nodes bs no_nodes) };

    ghost use Rattle.std.proofs.Common.{arith};
    ghost use Rattle.expr_tree.specs.Falls.{branches_fall};

    ghost size_decreases = { λ a h. omega (arith, branches_fall a.branches.items) };
}

impl Operand {
    /// An operand that is the expression.
    pub fn new(alloc: Global, expr: Expr) -> Result<Operand, NoMemory>
        ensures { IfOk result (λ o. o ≡ node_of expr) }
    {
        Ok(Operand {
            expr: Box::new(alloc, expr)?,
        })
    }

    /// The expression.
    pub fn expr(&self) -> &Expr
        ensures { node_of result.now ≡ self.now }
    {
        &self.expr
    }

    /// The expression, moved out.
    pub fn into_expr(self) -> Expr
        ensures { node_of result ≡ self }
    {
        Box::into_inner(self.expr)
    }
}

impl Exprs {
    /// An empty list.
    pub fn new(alloc: Global) -> Exprs
        ensures { result ≡ [] }
    {
        Exprs {
            exprs: Vec::new(alloc),
        }
    }

    /// The number of expressions.
    pub fn len(&self) -> usize
        ensures { result ≡ length self.now }
    {
        self.exprs.len()
    }

    /// The expression at that place.
    pub fn get(&self, i: usize) -> &Expr
        requires { i < length self.now }
        ensures { slice_get self.now i ≡ Some (node_of result.now) }
    {
        &self.exprs[i]
    }

    /// Appends the expression. A refusal changes nothing.
    pub fn add(&mut self, expr: Expr) -> Result<(), NoMemory>
        ensures ok { OnOk result (self.new ≡ self.old ++ node_of expr ∷ []) }
        ensures err { OnErr result (self.new ≡ self.old) }
    {
        self.exprs.push(expr)?;
        Ok(())
    }

    /// All expressions, in order.
    pub fn exprs(&self) -> &[Expr]
        ensures { map node_of result.now ≡ self.now }
    {
        self.exprs.as_slice()
    }
}

impl NamedExprs {
    /// No fields.
    pub fn new(alloc: Global) -> NamedExprs
        ensures { result ≡ ([], []) }
    {
        NamedExprs {
            names: Vec::new(alloc),
            exprs: Vec::new(alloc),
        }
    }

    /// The number of fields.
    pub fn len(&self) -> usize
        ensures names { result ≡ length self.now.0 }
        ensures exprs { result ≡ length self.now.1 }
    {
        self.names.len()
    }

    /// All names, in order. There are as many as expressions.
    pub fn names(&self) -> &[Name]
        ensures same { result.now ≡ self.now.0 }
        ensures length { length self.now.0 ≡ length self.now.1 }
    {
        let _exprs = &self.exprs;
        self.names.as_slice()
    }

    /// All expressions, in order.
    pub fn exprs(&self) -> &[Expr]
        ensures { map node_of result.now ≡ self.now.1 }
    {
        self.exprs.as_slice()
    }

    /// Appends a field. A refusal changes nothing.
    pub fn add(&mut self, name: Name, expr: Expr) -> Result<(), NoMemory>
        ensures ok { OnOk result (self.new ≡ (self.old.0 ++ name ∷ [], self.old.1 ++ node_of expr ∷ [])) }
        ensures err { OnErr result (self.new ≡ self.old) }
    {
        self.names.reserve(1)?;
        self.exprs.push(expr)?;
        self.names.push(name)?;
        Ok(())
    }
}

impl Bindings {
    /// No variables.
    pub fn new(alloc: Global) -> Bindings
        ensures { result ≡ ([], []) }
    {
        Bindings {
            names: Vec::new(alloc),
            exprs: Vec::new(alloc),
        }
    }

    /// The number of variables.
    pub fn len(&self) -> usize
        ensures names { result ≡ length self.now.0 }
        ensures exprs { result ≡ length self.now.1 }
    {
        self.names.len()
    }

    /// All names, in order. There are as many as expressions.
    pub fn names(&self) -> &[Text]
        ensures same { result.now ≡ self.now.0 }
        ensures length { length self.now.0 ≡ length self.now.1 }
    {
        let _exprs = &self.exprs;
        self.names.as_slice()
    }

    /// All expressions, in order.
    pub fn exprs(&self) -> &[Expr]
        ensures { map node_of result.now ≡ self.now.1 }
    {
        self.exprs.as_slice()
    }

    /// Appends a variable. A refusal changes nothing.
    pub fn add(&mut self, name: Text, expr: Expr) -> Result<(), NoMemory>
        ensures ok { OnOk result (self.new ≡ (self.old.0 ++ name ∷ [], self.old.1 ++ node_of expr ∷ [])) }
        ensures err { OnErr result (self.new ≡ self.old) }
    {
        self.names.reserve(1)?;
        self.exprs.push(expr)?;
        self.names.push(name)?;
        Ok(())
    }
}

impl Branches {
    /// No branches.
    pub fn new(alloc: Global) -> Branches
        ensures { result ≡ [] }
    {
        Branches {
            branches: Vec::new(alloc),
        }
    }

    /// The number of branches.
    pub fn len(&self) -> usize
        ensures { result ≡ length self.now }
    {
        self.branches.len()
    }

    /// All branches, in order: pairs of a case and its value.
    pub fn branches(&self) -> &[(Expr, Expr)]
        ensures { branches_in result.now ≡ self.now }
    {
        self.branches.as_slice()
    }

    /// Appends a branch. A refusal changes nothing.
    pub fn add(&mut self, case: Expr, value: Expr) -> Result<(), NoMemory>
        ensures ok { OnOk result (self.new ≡ self.old ++ (node_of case, node_of value) ∷ []) }
        ensures err { OnErr result (self.new ≡ self.old) }
    {
        self.branches.push((case, value))?;
        Ok(())
    }
}

impl Expr {
    /// An equal expression. It calls itself once for each level of nesting.
    #[cycle(copy)]
    pub fn copy(&self, alloc: Global) -> Result<Expr, NoMemory>
        ensures { IfOk result (λ e. e ≡ self.now) }
    {
        match self {
            Expr::Literal(value) => Ok(Expr::Literal(value.copy(alloc)?)),
            Expr::Field(path) => Ok(Expr::Field(path.copy(alloc)?)),
            Expr::Root(None) => Ok(Expr::Root(None)),
            Expr::Root(Some(path)) => Ok(Expr::Root(Some(path.copy(alloc)?))),
            Expr::Var(name, None) => Ok(Expr::Var(name.copy(alloc)?, None)),
            Expr::Var(name, Some(path)) => Ok(Expr::Var(
                name.copy(alloc)?,
                Some(path.copy(alloc)?),
            )),
            Expr::Remove => Ok(Expr::Remove),
            Expr::Make(fields) => Ok(Expr::Make(fields.copy(alloc)?)),
            Expr::MakeList(exprs) => Ok(Expr::MakeList(exprs.copy(alloc)?)),
            Expr::Apply(op, exprs) => Ok(Expr::Apply(*op, exprs.copy(alloc)?)),
            Expr::And(exprs) => Ok(Expr::And(exprs.copy(alloc)?)),
            Expr::Or(exprs) => Ok(Expr::Or(exprs.copy(alloc)?)),
            Expr::Cond(test, yes, no) => Ok(Expr::Cond(
                test.copy(alloc)?,
                yes.copy(alloc)?,
                no.copy(alloc)?,
            )),
            Expr::IfNull(exprs) => Ok(Expr::IfNull(exprs.copy(alloc)?)),
            Expr::Switch(branches, None) => Ok(Expr::Switch(branches.copy(alloc)?, None)),
            Expr::Switch(branches, Some(default)) => Ok(Expr::Switch(
                branches.copy(alloc)?,
                Some(default.copy(alloc)?),
            )),
            Expr::Let(bindings, body) => Ok(Expr::Let(bindings.copy(alloc)?, body.copy(alloc)?)),
            Expr::Map(input, name, body) => Ok(Expr::Map(
                input.copy(alloc)?,
                name.copy(alloc)?,
                body.copy(alloc)?,
            )),
            Expr::Filter(input, name, body) => Ok(Expr::Filter(
                input.copy(alloc)?,
                name.copy(alloc)?,
                body.copy(alloc)?,
            )),
            Expr::Reduce(input, initial, body) => Ok(Expr::Reduce(
                input.copy(alloc)?,
                initial.copy(alloc)?,
                body.copy(alloc)?,
            )),
            Expr::DatePart(part, date) => Ok(Expr::DatePart(*part, date.copy(alloc)?)),
            Expr::DateAdd(date, unit, amount, back) => Ok(Expr::DateAdd(
                date.copy(alloc)?,
                *unit,
                amount.copy(alloc)?,
                *back,
            )),
            Expr::DateDiff(first, second, unit) => Ok(Expr::DateDiff(
                first.copy(alloc)?,
                second.copy(alloc)?,
                *unit,
            )),
            Expr::DateTrunc(date, unit) => Ok(Expr::DateTrunc(date.copy(alloc)?, *unit)),
        }
    }
}

impl Operand {
    /// An equal operand.
    #[cycle(copy)]
    pub fn copy(&self, alloc: Global) -> Result<Operand, NoMemory>
        ensures { IfOk result (λ o. o ≡ self.now) }
    {
        Ok(Operand {
            expr: Box::new(alloc, self.expr.copy(alloc)?)?,
        })
    }
}

impl Exprs {
    /// An equal list.
    #[cycle(copy)]
    pub fn copy(&self, alloc: Global) -> Result<Exprs, NoMemory>
        ensures { IfOk result (λ e. e ≡ self.now) }
    {
        let mut exprs = Vec::new(alloc);
        for expr in &self.exprs {
            exprs.push(expr.copy(alloc)?)?;
        }
        Ok(Exprs { exprs })
    }
}

impl NamedExprs {
    /// Equal fields.
    #[cycle(copy)]
    pub fn copy(&self, alloc: Global) -> Result<NamedExprs, NoMemory>
        ensures { IfOk result (λ f. f ≡ self.now) }
    {
        let mut names = Vec::new(alloc);
        for name in &self.names {
            names.push(name.copy(alloc)?)?;
        }
        let mut exprs = Vec::new(alloc);
        for expr in &self.exprs {
            exprs.push(expr.copy(alloc)?)?;
        }
        Ok(NamedExprs { names, exprs })
    }
}

impl Bindings {
    /// Equal variables.
    #[cycle(copy)]
    pub fn copy(&self, alloc: Global) -> Result<Bindings, NoMemory>
        ensures { IfOk result (λ f. f ≡ self.now) }
    {
        let mut names = Vec::new(alloc);
        for name in &self.names {
            names.push(name.copy(alloc)?)?;
        }
        let mut exprs = Vec::new(alloc);
        for expr in &self.exprs {
            exprs.push(expr.copy(alloc)?)?;
        }
        Ok(Bindings { names, exprs })
    }
}

impl Branches {
    /// Equal branches.
    #[cycle(copy)]
    pub fn copy(&self, alloc: Global) -> Result<Branches, NoMemory>
        ensures { IfOk result (λ b. b ≡ self.now) }
    {
        let mut branches = Vec::new(alloc);
        for branch in &self.branches {
            branches.push((branch.0.copy(alloc)?, branch.1.copy(alloc)?))?;
        }
        Ok(Branches { branches })
    }
}
