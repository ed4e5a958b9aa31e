//! Small files, judged by evaluation: each text spells a tree, and the definitions give its first fault. Nothing runs
//! here.
ghost use Rattle.fault_mean.specs.SamplesCounts.{Params, Cells, Headers, Handlers, Locals, Layers};
ghost use Rattle.fault_mean.specs.SamplesLibrary.{FromLibrary, GivenToLibrary, FaultOfLibrary, HidesLibrary};
ghost use Rattle.fault_mean.specs.SamplesVisible.{UnknownCell, BeforeLet, InItsLet, InItsBound, AfterItsBlock};
ghost use Rattle.fault_mean.specs.SamplesVisible.{TakenElsewhere, LocalAsHeader, DeclaredAfter, UnknownLabel};
ghost use Rattle.fault_mean.specs.SamplesVisible.{LabelOfNone, UnknownLayer, CellGiven};
ghost use Rattle.fault_mean.specs.SamplesTwice.{LayerTwice, CellAndParam, LocalAndCell, ArgumentAndField, OtherBlocks};
ghost use Rattle.fault_mean.specs.SamplesTwice.{LabelTwice, ParamTwice, HandlerTwice};
ghost use Rattle.fault_mean.specs.SamplesLimits.{FiveFields, FifthTwice, MessageInside, CapacityOutside, GivenOutside};
ghost use Rattle.fault_mean.specs.SamplesLimits.{MaximumOutside, NotPlaced, PlacesBeyond};
ghost use Rattle.fault_mean.specs.SamplesKinds.{NumberAsMessage, ArrayAsNumber, TailOfPart, JoinOfMessages, QueueSet};
ghost use Rattle.fault_mean.specs.SamplesKinds.{HeldOfNumbers, PartPushed, CellAsSize};
ghost use Rattle.fault_mean.specs.SamplesEmissions.{ArgumentMissing, FieldMissing, HeaderUp, FieldMissingUp};
ghost use Rattle.fault_mean.specs.SamplesEmissions.{MessageEnds, PartPasses, PartUp, InitialOfCell, InitialOfArray};
ghost use Rattle.fault_mean.specs.SamplesEmissions.{NamesFirst, Counter};
ghost use Rattle.fault_mean.specs.SamplesHandlers.{HandlerArity, FieldsArity, TakesOffDown, TakesOffTimer};
ghost use Rattle.fault_mean.specs.SamplesHandlers.{CellTakenOff, CellPutOn, RowArity, ConditionOfField};

/// Which names are visible where.
pub fn visible()
    ensures unknown_cell { UnknownCell }
    ensures before_let { BeforeLet }
    ensures in_its_let { InItsLet }
    ensures in_its_bound { InItsBound }
    ensures after_its_block { AfterItsBlock }
    ensures taken_elsewhere { TakenElsewhere }
    ensures local_as_header { LocalAsHeader }
    ensures declared_after { DeclaredAfter }
    ensures unknown_label { UnknownLabel }
    ensures label_of_none { LabelOfNone }
    ensures unknown_layer { UnknownLayer }
    ensures cell_given { CellGiven }
{}

/// Names, labels and handlers that are there twice.
pub fn twice()
    ensures layer_twice { LayerTwice }
    ensures cell_and_param { CellAndParam }
    ensures local_and_cell { LocalAndCell }
    ensures argument_and_field { ArgumentAndField }
    ensures other_blocks { OtherBlocks }
    ensures label_twice { LabelTwice }
    ensures param_twice { ParamTwice }
    ensures handler_twice { HandlerTwice }
{}

/// Limits.
pub fn limits()
    ensures five_fields { FiveFields }
    ensures fifth_twice { FifthTwice }
    ensures message_inside { MessageInside }
    ensures capacity_outside { CapacityOutside }
    ensures given_outside { GivenOutside }
    ensures maximum_outside { MaximumOutside }
    ensures not_placed { NotPlaced }
    ensures places_beyond { PlacesBeyond }
{}

/// Things of another kind than is needed.
pub fn kinds()
    ensures number_as_message { NumberAsMessage }
    ensures array_as_number { ArrayAsNumber }
    ensures tail_of_part { TailOfPart }
    ensures join_of_messages { JoinOfMessages }
    ensures queue_set { QueueSet }
    ensures held_of_numbers { HeldOfNumbers }
    ensures part_pushed { PartPushed }
    ensures cell_as_size { CellAsSize }
{}

/// Emissions and initial values.
pub fn emissions()
    ensures argument_missing { ArgumentMissing }
    ensures field_missing { FieldMissing }
    ensures header_up { HeaderUp }
    ensures field_missing_up { FieldMissingUp }
    ensures message_ends { MessageEnds }
    ensures part_passes { PartPasses }
    ensures part_up { PartUp }
    ensures initial_of_cell { InitialOfCell }
    ensures initial_of_array { InitialOfArray }
    ensures names_first { NamesFirst }
    ensures counter { Counter }
{}

/// Handlers and what they take off.
pub fn handlers()
    ensures handler_arity { HandlerArity }
    ensures fields_arity { FieldsArity }
    ensures takes_off_down { TakesOffDown }
    ensures takes_off_timer { TakesOffTimer }
    ensures cell_taken_off { CellTakenOff }
    ensures cell_put_on { CellPutOn }
    ensures row_arity { RowArity }
    ensures condition_of_field { ConditionOfField }
{}

/// As many things as a limit allows, and one more.
pub fn counts()
    ensures params { Params }
    ensures cells { Cells }
    ensures headers { Headers }
    ensures handlers { Handlers }
    ensures locals { Locals }
    ensures layers { Layers }
{}

/// Layers of the library.
pub fn library()
    ensures from_library { FromLibrary }
    ensures given_to_library { GivenToLibrary }
    ensures fault_of_library { FaultOfLibrary }
    ensures hides_library { HidesLibrary }
{}
