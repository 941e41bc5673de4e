//! Texts with signs: paths into the document, and variables.

ghost use Rattle.std.specs.Prelude.{◌≡◌, IfOk};
ghost use Rattle.expr_tree.specs.Forms.{is_root, is_remove};
ghost use Rattle.expr_tree.specs.View.{node_of};
ghost use Rattle.expr_read.specs.Reading.{path_in, field_reading, bound_reading, named_reading, variable_reading, sign_reading, text_reading};
ghost use Rattle.expr_read.specs.Reads.{Reads};
ghost use Rattle.expr_read.specs.Scopes.{names_in};

use crate::errors::FormError;
use crate::parts::has_sign;
use crate::scope::{Scope, is_bound};
use bson_value::{NoMemory, Path, PathError, Text, Value};
use expr_tree::Expr;
use std::alloc::Global;

fn path_in(alloc: Global, text: &[u8]) -> Result<Path, FormError>
    ensures { Reads (λ p. p) result (path_in text.now) }
{
    match Path::read(alloc, text) {
        Ok(path) => Ok(path),
        Err(PathError::Bad) => Err(FormError::Form),
        Err(PathError::Memory) => Err(FormError::Memory),
    }
}

// A text with one sign, behind that sign.
fn read_field(alloc: Global, text: &[u8]) -> Result<Expr, FormError>
    ensures { Reads node_of result (field_reading text.now) }
{
    match path_in(alloc, text) {
        Ok(path) => Ok(Expr::Field(path)),
        Err(e) => Err(e),
    }
}

fn is_root(name: &[u8]) -> bool
    ensures { result ≡ is_root name.now }
{
    name == b"ROOT".as_slice() || name == b"CURRENT".as_slice()
}

fn is_remove(name: &[u8]) -> bool
    ensures { result ≡ is_remove name.now }
{
    name == b"REMOVE".as_slice()
}

/// The text of a name.
pub fn name_text(alloc: Global, name: &[u8]) -> Result<Text, NoMemory>
    ensures { IfOk result (λ t. t ≡ name.now) }
{
    match Text::read(alloc, name) {
        Ok(text) => Ok(text),
        Err(_) => Err(NoMemory),
    }
}

fn read_bound(alloc: Global, path: Path, scope: &Scope<'_>) -> Result<Expr, FormError>
    ensures { Reads node_of result (bound_reading (names_in scope.now) path) }
{
    if is_bound(scope, path.step(0)) {
        let name = name_text(alloc, path.step(0))?;
        Ok(Expr::Var(name, path.rest()))
    } else {
        Err(FormError::Form)
    }
}

fn read_named(alloc: Global, path: Path, scope: &Scope<'_>) -> Result<Expr, FormError>
    ensures { Reads node_of result (named_reading (names_in scope.now) path) }
{
    let name = path.step(0);
    if is_root(name) {
        Ok(Expr::Root(path.rest()))
    } else if is_remove(name) {
        if path.len() == 1 {
            Ok(Expr::Remove)
        } else {
            Err(FormError::Form)
        }
    } else {
        read_bound(alloc, path, scope)
    }
}

// A text with two signs, behind them.
fn read_variable(alloc: Global, text: &[u8], scope: &Scope<'_>) -> Result<Expr, FormError>
    ensures { Reads node_of result (variable_reading text.now (names_in scope.now)) }
{
    match path_in(alloc, text) {
        Ok(path) => read_named(alloc, path, scope),
        Err(e) => Err(e),
    }
}

fn read_sign(alloc: Global, text: &[u8], scope: &Scope<'_>) -> Result<Expr, FormError>
    ensures { Reads node_of result (sign_reading text.now (names_in scope.now)) }
{
    if has_sign(text) {
        read_variable(alloc, &text[1..], scope)
    } else {
        read_field(alloc, text)
    }
}

/// The expression that a text is.
pub fn read_text(alloc: Global, text: &Text, scope: &Scope<'_>) -> Result<Expr, FormError>
    ensures { Reads node_of result (text_reading text.now (names_in scope.now)) }
{
    let bytes = text.bytes();
    if has_sign(bytes) {
        read_sign(alloc, &bytes[1..], scope)
    } else {
        Ok(Expr::Literal(Value::Text(text.copy(alloc)?)))
    }
}
