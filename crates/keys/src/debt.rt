// A debt as a key.
ghost use Rattle.std.proofs.Common.{rules};
ghost use Rattle.std.specs.Cmp.Rules.{comparing};

use super::key::Key;
use std::cmp::Reverse;

/// A debt, in bytes times price; below 0 it is a lead. The greatest comes first.
#[derive(Clone, Copy, PartialEq, Eq, PartialOrd, Ord, Debug)]
pub struct Debt(pub Reverse<i64>);

impl Key for Debt {
    ghost irreflexive = { Prim.search (comparing, rules) };

    ghost transitive = { Prim.search (comparing, rules) };

    ghost connected = { Prim.search (comparing, rules) };
}
