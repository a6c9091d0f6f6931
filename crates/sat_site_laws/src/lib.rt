//! Sites stay sites, over all that a site keeps and all that it is handed.
#![tactic(auto)]

ghost use Rattle.sat_site_laws.specs.Stays.{SitesStart, SitesStay};

/// What the type of a site makes sure of, stated of plain records, so that it can be said of a site that nobody holds:
/// it holds of a new site of a deployment within its limits, and an input that fits leaves it so.
pub fn sites_stay()
    ensures start { SitesStart }
    ensures stay { SitesStay }
{}
