// A count of service as a key.
ghost use Rattle.std.proofs.Common.{rules};
ghost use Rattle.std.specs.Cmp.Rules.{comparing};

use super::key::Key;

/// A count of service, in bytes times price. The smallest comes first.
///
/// A type apart from [`VirtualTime`](super::VirtualTime): a count cannot be compared with a time.
#[derive(Clone, Copy, PartialEq, Eq, PartialOrd, Ord, Debug)]
pub struct Count(pub u64);

impl Key for Count {
    ghost irreflexive = { Prim.search (comparing, rules) };

    ghost transitive = { Prim.search (comparing, rules) };

    ghost connected = { Prim.search (comparing, rules) };
}
