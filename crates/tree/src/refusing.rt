//! Why a list of parents is no service tree.

/// Why a service tree is refused.
#[derive(Clone, Copy, Debug, PartialEq)]
pub enum Refusal {
    /// Against the rule of a tree.
    BadTree,
}
