//! What errors of texts print.

use audit_judge::AuditError;
use script_text::ScriptError;
use std::test::Fail;

#[test]
fn errors_say_what_is_wrong(rt: HostRuntime) -> Result<(), Fail> {
    let cases = [
        (ScriptError::TooLong, "the script is too long"),
        (ScriptError::BadLine(3), "line 3 is out of form"),
        (ScriptError::NoMember(4), "line 4 names no member"),
        (ScriptError::Memory, "out of memory"),
    ];
    for (error, expected) in cases {
        let shown = format!(in rt.alloc(); "{error}")?;
        assert_eq!(rt; shown.as_str(), expected);
    }
    let cases = [
        (AuditError::TooLarge, "too large"),
        (AuditError::Line(3), "line 3"),
        (AuditError::Memory, "out of memory"),
    ];
    for (error, expected) in cases {
        let shown = format!(in rt.alloc(); "{error}")?;
        assert_eq!(rt; shown.as_str(), expected);
    }
    Ok(())
}
