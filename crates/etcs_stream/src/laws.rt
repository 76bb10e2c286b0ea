//! Laws, each the contract of a function.

ghost use Rattle.etcs_stream.specs.OneRuns.{OneEnd, OneFront, OneLast, OneText, OneWhole};
ghost use Rattle.etcs_stream.specs.ReadBacks.{ReadBack};

/// What `run` promises of an input is promised of one run: an input has one list of items and ends in one way; what is
/// there of it has one list of whole items; first items of it are the front of the list of its items; items have one
/// text, those of a group too; and so have the last lines of a group that is held.
pub fn one_run()
    ensures end { OneEnd }
    ensures whole { OneWhole }
    ensures front { OneFront }
    ensures text { OneText }
    ensures last { OneLast }
{}

/// What a conversion writes is read back as the same items: the text that it writes of items of one kind that have
/// spellings, at most 1,000,000, in any of the three forms, has in that form exactly these items, in order, and then ends.
/// So the text of one item is read as that item alone. Of a run over the text nothing is promised here.
pub fn read_back()
    ensures { ReadBack }
{}
