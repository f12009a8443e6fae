use crate::arithmetic::Arithmetic;
use crate::types::Operation;

/// An operation of a board's arithmetic, which ties x and y to z. Clauses name the arithmetic, the kind and the modes
/// apart, as the definitions do.
#[derive(Drop)]
pub(crate) struct Constraint<'a, A: Arithmetic> {
    pub(crate) arithmetic: &'a A,
    pub(crate) operation: Operation,
}
