//! What stands between two operands.

use forec_base::Binary;

/// An operator with two operands: one that computes a number of both, `&&` or `||`.
#[derive(Clone, Copy, Debug, PartialEq, Eq)]
pub enum Operator {
    Computes { op: Binary },
    And,
    Or,
}
