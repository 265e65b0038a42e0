//! What is true of the choice and of what it is made of. The functions do nothing: their contracts are the laws.
ghost use Rattle.lethe_fade.specs.LevelTimes.{AllDeadlinesRise};
ghost use Rattle.lethe_fade.specs.Claims.{MeetingIsSharing};
ghost use Rattle.lethe_fade.specs.Ranks.{FilesComeInOrder};
ghost use Rattle.lethe_fade.specs.Expired.{ExpiredComeInOrder};
ghost use Rattle.lethe_fade.specs.Sweeps.{SweepsComeInOrder};
ghost use Rattle.lethe_fade.specs.Choice.{DueIsFirst};
ghost use Rattle.lethe_fade.specs.Claimed.{ChoiceIsFree};

/// A deeper level has no lesser time, and the last that has one has the threshold.
pub fn deadlines_rise()
    ensures { AllDeadlinesRise }
{}

/// Two claims, each with its ends in order, meet exactly where they share a level and a key.
pub fn meeting_is_sharing()
    ensures { MeetingIsSharing }
{}

/// The files of a level come as candidates in an order that ascends, each as often as it is there.
pub fn files_come_in_order()
    ensures { FilesComeInOrder }
{}

/// The expired files of a level come as candidates in an order that ascends, each as often as it is there.
pub fn expired_come_in_order()
    ensures { ExpiredComeInOrder }
{}

/// The files of a level that an erase is still to be applied to come as candidates in an order that ascends, each as often as it is there.
pub fn sweeps_come_in_order()
    ensures { SweepsComeInOrder }
{}

/// Where no claim stands and something is due at the clock, that is the choice.
pub fn due_is_first()
    ensures { DueIsFirst }
{}

/// In a valid shape the plan that is picked has a claim, with its ends in order, which meets none of those given.
pub fn choice_is_free()
    ensures { ChoiceIsFree }
{}
