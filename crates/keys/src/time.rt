// A virtual time as a key.
ghost use Rattle.std.proofs.Common.{rules};
ghost use Rattle.std.specs.Cmp.Rules.{comparing};

use super::key::Key;

/// A virtual time, in bytes times price. The smallest comes first.
///
/// A type apart from [`Count`](super::Count): a time cannot be compared with a count.
#[derive(Clone, Copy, PartialEq, Eq, PartialOrd, Ord, Debug)]
pub struct VirtualTime(pub u64);

impl Key for VirtualTime {
    ghost irreflexive = { Prim.search (comparing, rules) };

    ghost transitive = { Prim.search (comparing, rules) };

    ghost connected = { Prim.search (comparing, rules) };
}
