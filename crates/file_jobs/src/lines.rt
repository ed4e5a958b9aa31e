//! Lines of outputs.

ghost use Rattle.std.specs.Prelude.{◌≡◌, ◌++◌, IfOk, codes};
ghost use Rattle.std.specs.String.{string_bytes};
ghost use Rattle.std.specs.Fmt.{decimal};
ghost use Rattle.output_mean.specs.Output.{finding_line};

use audit_judge::Finding;
use std::alloc::{AllocError, Global};

/// The output of a check.
pub(crate) fn accepted_line(alloc: Global, places: u8) -> Result<String, AllocError>
    ensures { IfOk result (λ line. string_bytes line ≡ codes "accepted " ++ decimal places ++ codes "\n") }
{
    format!(in alloc; "accepted {places}\n")
}

/// The output of an audit.
pub(crate) fn finding_line(alloc: Global, finding: Finding) -> Result<String, AllocError>
    ensures { IfOk result (λ line. string_bytes line ≡ finding_line finding) }
{
    match finding {
        Finding::Holds => String::from_str(alloc, "holds\n"),
        Finding::Breach(first, second) => format!(in alloc; "breach {first} {second}\n"),
    }
}
