ghost use Rattle.quiet_core.specs.Laws.{MovesKeepBalance, NoOtherCondition, RootIsQuiet};

/// Whatever a hand does under its conditions keeps the balance, over lists of words and accounts of
/// any length: a law of the definitions, with nothing to do at run time.
pub fn moves_keep_balance()
    ensures { MovesKeepBalance }
{}

/// A state with the balance is quiet where a hand holds Root, over lists of words and accounts of
/// any length: a law of the definitions, with nothing to do at run time.
pub fn root_is_quiet()
    ensures { RootIsQuiet }
{}

/// The conditions of an event, in their order, ask what the event's meaning asks and no more: a law
/// of the definitions, with nothing to do at run time.
pub fn no_other_condition()
    ensures { NoOtherCondition }
{}
