// What a kind of key has to show.
ghost use Rattle.std.specs.Prelude.{◌≡◌};
ghost use Rattle.keys.specs.Order.{lt_by_cmp, IsIrreflexive, IsTransitive, IsConnected};

/// A kind of key, of which there is always one least.
///
/// Its order is std's. Each kind shows three laws of it: no key comes before itself; what comes
/// before a key comes before all that this key comes before; and of two keys that differ one comes
/// before the other. The last is more than std asks for: keys that std calls equal may differ.
pub trait Key: Ord + Copy {
    ghost irreflexive: { IsIrreflexive (lt_by_cmp Self.cmp) };

    ghost transitive: { IsTransitive (lt_by_cmp Self.cmp) };

    ghost connected: { IsConnected (lt_by_cmp Self.cmp) };

    /// Whether this key comes before the other.
    final fn comes_before(&self, other: &Self) -> bool
        ensures { result ≡ lt_by_cmp Self.cmp self.now other.now }
    {
        self < other
    }
}
