//! What the operator gives, said of a whole list. The function does nothing: it is its contract.

ghost use Rattle.reshape_stage.specs.Laws.{OperatorIsRow};

/// What the operator of a stage gives for the documents of a list, one after another, and at the end is the list that
/// the stage gives, or the least of the codes of all documents.
pub fn operator_is_row()
    ensures { OperatorIsRow }
{}
