//! Small files, worked out by evaluation: what they mean, and that their texts are these files. Nothing runs here.
ghost use Rattle.std.specs.Prelude.{◌≡◌};
ghost use Rattle.file_mean.specs.Library.{IsFile};
ghost use Rattle.file_mean.specs.Stack.{stack_of};
ghost use Rattle.file_mean.specs.CounterFile as counter;
ghost use Rattle.file_mean.specs.AliasFile as alias;
ghost use Rattle.file_mean.specs.PacesFile as paces;
ghost use Rattle.file_mean.specs.BlocksFile as blocks;
ghost use Rattle.file_mean.specs.QueuesFile as queues;
ghost use Rattle.file_mean.specs.FormsFile as forms;

/// The counter layer's file: each cast carries the sender's count.
pub fn counter_file()
    ensures spelled { IsFile counter.text counter.file }
    ensures means { stack_of counter.file ≡ counter.stack }
{}

/// A layer that writes to an element of an array, and then reads one that may be the same.
pub fn alias_file()
    ensures spelled { IsFile alias.text alias.file }
    ensures means { stack_of alias.file ≡ alias.stack }
{}

/// A param that one place gives, and the other leaves as it is declared.
pub fn paces_file()
    ensures spelled { IsFile paces.text paces.file }
    ensures means { stack_of paces.file ≡ paces.stack }
{}

/// One name that a handler declares in two blocks, and once more after them.
pub fn blocks_file()
    ensures spelled { IsFile blocks.text blocks.file }
    ensures means { stack_of blocks.file ≡ blocks.stack }
{}

/// Queues of messages and of parts at two places: a missing message is blank up to the top of the stack.
pub fn queues_file()
    ensures spelled { IsFile queues.text queues.file }
    ensures means { stack_of queues.file ≡ queues.stack }
{}

/// A square array, a choice, parts before messages, and an event of two numbers.
pub fn forms_file()
    ensures spelled { IsFile forms.text forms.file }
    ensures means { stack_of forms.file ≡ forms.stack }
{}
