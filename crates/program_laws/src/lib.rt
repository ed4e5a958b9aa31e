//! That the ends of a run of the program exclude each other: the contracts of functions that do nothing.
#![tactic(auto)]

ghost use Rattle.program_laws.specs.OneEnd.{
  AcceptedOrRefused,
  FilesAreDue,
  GoodAreDue,
  GoodOrRefused,
  MissesAreDue,
  OneEnd,
  OneFile,
  OneMeaning,
  OneRefusal,
  OneTracesFault,
  ReportsAreDue,
  SecondMissesAreDue,
  SecondsAreDue,
  ThirdMissesAreDue,
  TracesAreDue,
  WordsAreDue,
};

/// A text is one file at most, with what the library brings.
pub fn one_file()
    ensures { OneFile }
{}

/// It means one stack at most.
pub fn one_meaning()
    ensures { OneMeaning }
{}

/// It is refused for one cause at most.
pub fn one_refusal()
    ensures { OneRefusal }
{}

/// What means a stack isn't refused.
pub fn good_or_refused()
    ensures { GoodOrRefused }
{}

/// For a stack a file of traces is refused for one cause at most.
pub fn one_traces_fault()
    ensures { OneTracesFault }
{}

/// What is accepted isn't refused.
pub fn accepted_or_refused()
    ensures { AcceptedOrRefused }
{}

/// A run of the program has one end, but for want of memory.
pub fn one_end()
    ensures { OneEnd }
{}

/// Words that are no job end with status 2, or memory ran out.
pub fn words_are_due()
    ensures { WordsAreDue }
{}

/// A file that is refused ends with status 1, or memory ran out.
pub fn files_are_due()
    ensures { FilesAreDue }
{}

/// An audit's file that is no report ends with status 1, or memory ran out.
pub fn reports_are_due()
    ensures { ReportsAreDue }
{}

/// A file that isn't there ends with status 4, or memory ran out.
pub fn misses_are_due()
    ensures { MissesAreDue }
{}

/// A job without a network that has a whole output and of which no write failed ends with the status of that, or memory
/// ran out.
pub fn good_are_due()
    ensures { GoodAreDue }
{}

/// A second file that is refused ends with status 3, or memory ran out.
pub fn seconds_are_due()
    ensures { SecondsAreDue }
{}

/// A second file that isn't there ends with status 4, or memory ran out.
pub fn second_misses_are_due()
    ensures { SecondMissesAreDue }
{}

/// A file of traces that is refused ends with status 9, or memory ran out.
pub fn traces_are_due()
    ensures { TracesAreDue }
{}

/// A third file that isn't there ends with status 4, or memory ran out.
pub fn third_misses_are_due()
    ensures { ThirdMissesAreDue }
{}
