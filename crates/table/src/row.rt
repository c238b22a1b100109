// What a row of a table can tell of itself.
ghost use Rattle.std.specs.Prelude.{◌≡◌, Bool};

/// A row that can tell whether a key is its own.
pub trait Row<K> {
    // whether the row has the key
    ghost has: { Self → K → Bool };

    /// Whether the row has the key.
    fn is(&self, key: &K) -> bool
        ensures value { result ≡ has self.now key.now };
}
