ghost use Rattle.watch_kit.specs.Examples.{AnswersThirdSink, LeavesTwo, OtherEndings, RoundsTowardZero, SplitsOnce, SweepsWhatIsLeft};
ghost use Rattle.watch_kit.specs.Law.{AnswersKeepLimit, ConnectsKeepLimit, SplitsLeaveOthers, SplitsToLimit};

/// The definitions tried on a worked example.
pub fn worked_answers()
    ensures splits { SplitsOnce }
    ensures third { AnswersThirdSink }
    ensures leaves { LeavesTwo }
    ensures sweeps { SweepsWhatIsLeft }
    ensures rounds { RoundsTowardZero }
    ensures endings { OtherEndings }
{}

/// The law of splits: a net bit with more sinks than the fan-out setting allows has as many as it
/// allows after its split. The contract is what this is for.
pub fn each_split_ends_at_the_limit()
    ensures { SplitsToLimit }
{}

/// A split moves no sink of another net bit.
pub fn each_split_leaves_other_bits()
    ensures { SplitsLeaveOthers }
{}

/// The splits of those of some net bits that have too many sinks leave each of the bits as many as
/// it had, but no more than the setting allows.
pub fn each_answer_keeps_the_limit()
    ensures { AnswersKeepLimit }
{}

/// So does the answer to a Connect with the bits of the port's connection.
pub fn each_connect_keeps_the_limit()
    ensures { ConnectsKeepLimit }
{}
