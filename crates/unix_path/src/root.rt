// Whether a path starts at the root.
ghost use Rattle.std.specs.Prelude.{◌≡◌};
ghost use Rattle.unix_path.specs.Paths.{rooted};

/// Whether `path` starts with a slash.
pub(crate) fn is_rooted(path: &[u8]) -> bool
    ensures value { result ≡ rooted path.now }
{
    path.first() == Some(&b'/')
}
