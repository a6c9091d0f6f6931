//! The serializers and links of one epoch's tree: labels go up from their sites, on from serializer to serializer, and
//! down to the sites that they are for, each link first-in-first-out (Bravo, Rodrigues and Van Roy, EuroSys 2017).
#![tactic(auto)]

mod fault;
mod net;
mod places;

ghost use Rattle.sat_net.specs.Laws.{TreesGiveNets, NetsStayNets, NetsStart, SendsGoUp, OthersStayDown, HopsGoOn};
ghost use Rattle.sat_net.specs.Laws.{SitesTake, KillsLeaveLinks, OthersStay, RestStays, SitesFind, SeatsAreSeats};
ghost use Rattle.sat_net.specs.Laws.{HopsFind, HopsMayGo, LeadsAreTargets, RoutesAreTargets, LabelsLeave, LabelsStay};

pub use fault::HopFault;
pub use net::Net;

/// What a net becomes stands for what the links of a history become, in the epoch that has the net's tree: by a label
/// that a site sent or took, or that a serializer handed on, by a kill, and by what happens elsewhere. What a site or a
/// hop finds on a link, and the ways of a label in a net, are those of the history.
pub fn net_laws()
    ensures fresh { TreesGiveNets }
    ensures nets { NetsStayNets }
    ensures starts { NetsStart }
    ensures sends { SendsGoUp }
    ensures keeps { OthersStayDown }
    ensures hops { HopsGoOn }
    ensures takes { SitesTake }
    ensures kills { KillsLeaveLinks }
    ensures others { OthersStay }
    ensures rests { RestStays }
    ensures sites_find { SitesFind }
    ensures seats { SeatsAreSeats }
    ensures hops_find { HopsFind }
    ensures may_hop { HopsMayGo }
    ensures leads { LeadsAreTargets }
    ensures routes { RoutesAreTargets }
    ensures leaves { LabelsLeave }
    ensures stays { LabelsStay }
{}
