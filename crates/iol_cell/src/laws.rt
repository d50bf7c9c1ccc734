//! The law of the cell's rule, without code.
ghost use Rattle.iol_cell.specs.Steps.{ReadsKeepTheRule, PublishesKeepTheRule, SplitsKeepTheRule, JoinsKeepTheRule};

/// A law of a cell's rule, without code: each of its four kinds of step keeps it.
///
/// A publish changes what the writer knows, a read what the seat knows that reads, a split makes a
/// seat beside another; a join, which no call makes, leaves one of two seats with the longer list.
///
/// For who reads the rule: it isn't one that no step can keep.
pub fn each_step_keeps_the_rule()
    ensures reads { ReadsKeepTheRule }
    ensures publishes { PublishesKeepTheRule }
    ensures splits { SplitsKeepTheRule }
    ensures joins { JoinsKeepTheRule }
{}
