// The worked examples of the documents, as one theorem over the definitions that the contracts cite.
#![tactic(auto)]

ghost use Rattle.std.specs.Prelude.{◌≡◌};
ghost use Rattle.worked.specs.Examples.{WorkedExamples};

/// How many worked examples hold: all of them.
pub fn worked_examples() -> u8
    ensures count { result ≡ 8 }
    ensures examples { WorkedExamples }
{
    8
}
