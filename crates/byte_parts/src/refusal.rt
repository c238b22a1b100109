// Why something is refused: each kind of fault tells the number of its refusal.
ghost use Rattle.std.specs.Prelude.{◌≡◌};
ghost use Rattle.byte_parts.specs.Refusals.{Refusal};

/// Why something is refused.
pub trait Fault {
    // the number of the refusal, and the values that it carries
    ghost told: { Self → Refusal };

    /// The number of the refusal.
    // A number beside the enums: documents, the command line and C know a refusal by it.
    fn refusal(self) -> u32
        ensures value { result ≡ (told self).number };
}
