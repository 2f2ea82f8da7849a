//! What holds of surveys: each law is the contract of a function that does nothing.

ghost use Rattle.survey.specs.CodeLaw.{CodeIsCounted, HalfwordsDiffer};
ghost use Rattle.survey.specs.CountLaw.{CountersCount, CountersDiffer};
ghost use Rattle.survey.specs.LineLaw.{CountedHaveLines, EachHasOneLine};
ghost use Rattle.survey.specs.SumLaw.{OutcomesAddUp, SumsCount};
ghost use Rattle.survey.specs.TimeLaw.{LanesStay, TimelinesShow};

/// A counter has counted the events of the steps that are accesses of its rule, privilege, kind and outcome,
/// up to its highest value, 2^64 - 1; and no two of these have one counter.
pub fn counters_count_events()
    ensures events { CountersCount }
    ensures apart { CountersDiffer }
{}

/// A counter of code has counted the instructions of the steps that began at its halfword in code of its privilege, up
/// to its highest value, 2^64 - 1; and no two halfwords have one counter, nor have two privileges.
pub fn code_counters_count_instructions()
    ensures flash { CodeIsCounted (λ v. v.flash_code) }
    ensures ram { CodeIsCounted (λ v. v.ram_code) }
    ensures apart { HalfwordsDiffer }
{}

/// The line of an event that a counter counts is that of an access of its rule, privilege, kind and outcome; and each
/// event has one line.
pub fn counted_events_have_lines()
    ensures counted { CountedHaveLines }
    ensures each { EachHasOneLine }
{}

/// The sum of any counters is the number of the accesses that they count; so the granted and the refused ones
/// together are the number of all accesses.
pub fn counters_add_up()
    ensures sums { SumsCount }
    ensures outcomes { OutcomesAddUp }
{}

/// A column of the timeline has a mark exactly where a step made it whose tick is one of the column's; and an
/// exception that has a lane keeps it.
pub fn columns_show_their_ticks()
    ensures marks { TimelinesShow }
    ensures lanes { LanesStay }
{}
