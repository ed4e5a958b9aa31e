//! The last step of a hunt: what was found is judged once more, from the bytes that are written.

ghost use Rattle.std.specs.Prelude.{IfOk, IfSome};
ghost use Rattle.std.specs.Bool.{OnTrue};
ghost use Rattle.hunt_mean.specs.Find.{IsFind};
ghost use Rattle.hunt_run.specs.Breaks.{AreSame};
ghost use Rattle.hunt_run.specs.Reading.{request_shown};

use crate::broken::{Broken, broken_by};
use crate::told::tell;
use crate::words::Request;
use report_lines::Line;
use std::alloc::{AllocError, Global};

/// A draft of a script after comments on what its report breaks, if the report breaks the law and does so in the same
/// way with the comments.
pub(crate) fn find(
    alloc: Global,
    request: Request<'_>,
    file: &[u8],
    draft: &[u8],
) -> Result<Option<Line>, AllocError>
    ensures { IfOk result (λ found. IfSome found (IsFind (request_shown request.entry) file.now)) }
{
    let Some(broken) = broken_by(alloc, request, file, draft)? else {
        return Ok(None);
    };
    let Ok(text) = tell(alloc, request.law, &broken, draft) else {
        return Err(AllocError);
    };
    let Some(again) = broken_by(alloc, request, file, text.slice())? else {
        return Ok(None);
    };
    if is_same(&broken, &again) {
        Ok(Some(text))
    } else {
        Ok(None)
    }
}

/// Whether two reports and their breaches are the same.
fn is_same(broken: &Broken, again: &Broken) -> bool
    ensures { OnTrue result (AreSame broken.now again.now) }
{
    broken.report.as_slice() == again.report.as_slice()
        && broken.first == again.first
        && broken.second == again.second
}
