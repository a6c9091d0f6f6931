//! A site and a world as machines without the past.
#![tactic(auto)]

ghost use Rattle.sat_model.specs.Laws.{AnswersAreLocal, EachPartAgrees, FlagsAreFree, InputsFit, JournalsReplay};
ghost use Rattle.sat_model.specs.Laws.{LinksLead, OthersStay, RunsGoOn, SitesStep, TimesEnd, UndoneStays, WorldsStart};
ghost use Rattle.sat_model.specs.Laws.{WorldsStep};

/// Sites and worlds without the past answer what the history answers: a step of the site that is handed something, and
/// a step of the world, give the entry's answer and the state that stands for the history with it. What is handed fits:
/// its numbers are those of sites, gears, items and epochs, its timestamps are not past the last, as no timestamp of a
/// run is, the items of an update ascend, and there is a value for each that the site keeps. Each label on a link is a
/// site's, names items, which ascend, or a site, and has a target beyond the link. A site's state is the replay of its
/// journal, and its answer a function of that and of what it is handed. Each part of the world that stands for a
/// history is what the history says; an act that was not done leaves that world, and so do a settle's own entry and the
/// flag of an entry.
pub fn machines()
    ensures sites { SitesStep }
    ensures others { OthersStay }
    ensures fit { InputsFit }
    ensures times { TimesEnd }
    ensures links { LinksLead }
    ensures journals { JournalsReplay }
    ensures on { RunsGoOn }
    ensures starts { WorldsStart }
    ensures steps { WorldsStep }
    ensures undone { UndoneStays }
    ensures flags { FlagsAreFree }
    ensures parts { EachPartAgrees }
    ensures local { AnswersAreLocal }
{}
