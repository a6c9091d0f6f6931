//! What a script may have, by what it is read for and its format.
ghost use Rattle.std.specs.Prelude.{◌≡◌};
ghost use Rattle.sat_script.specs.Dialect.{dialect_of, limits_of, has_form, is_quick, lacking};

use crate::Cause;
use crate::form::{Form, is_audited, is_chained, is_lasting, is_live};
use crate::limits::{AUDIT_ACTS, LIVE_ACTS, LIVE_CLIENTS, LIVE_SITES, MOST_CLIENTS, MOST_SETTLES};
use sat_label::limits_of as format_limits;

/// What a script is read for.
#[derive(Clone, Copy, Debug, PartialEq, Eq)]
pub enum Dialect {
    /// The machine, which has every form.
    Run,
    /// Nodes on threads, which have fewer forms and lower limits.
    Live,
    /// A judge of histories, each act of which has its answer behind it.
    Audit,
    /// The machine, each of whose serializers is a chain of replicas.
    Chain,
    /// The machine, each of whose sites has a journal that lasts.
    Lasting,
}

/// The most of what a script may have that differs by dialect or format.
#[derive(Clone, Copy, Debug, PartialEq, Eq)]
pub struct Limits {
    pub sites: u16,
    pub items: usize,
    pub clients: usize,
    /// Acts, `settle` among them.
    pub acts: u32,
    pub settles: u32,
}

impl Dialect {
    /// The dialect of scripts for nodes on threads, or of the others.
    pub fn of(live: bool) -> Dialect
        ensures { result ≡ dialect_of live }
    {
        if live { Dialect::Live } else { Dialect::Run }
    }

    /// The limits of its scripts of a format.
    pub fn limits(self, format: u16) -> Limits
        ensures { result ≡ limits_of self format }
    {
        let format = format_limits(format);
        let of_run = Limits {
            sites: format.sites,
            items: format.items,
            clients: MOST_CLIENTS,
            acts: format.acts,
            settles: MOST_SETTLES,
        };
        match self {
            Dialect::Run => of_run,
            Dialect::Chain => of_run,
            Dialect::Lasting => of_run,
            Dialect::Live => Limits {
                sites: LIVE_SITES,
                items: format.items,
                clients: LIVE_CLIENTS,
                acts: LIVE_ACTS,
                settles: MOST_SETTLES,
            },
            Dialect::Audit => Limits {
                sites: format.sites,
                items: format.items,
                clients: MOST_CLIENTS,
                acts: AUDIT_ACTS,
                settles: MOST_SETTLES,
            },
        }
    }

    /// Whether it has lines of a form.
    pub fn has(self, form: Form) -> bool
        ensures { result ≡ has_form self form }
    {
        match self {
            Dialect::Run => true,
            Dialect::Live => is_live(form),
            Dialect::Audit => is_audited(form),
            Dialect::Chain => is_chained(form),
            Dialect::Lasting => is_lasting(form),
        }
    }

    /// Whether it has each form that most lines are, but hops perhaps, within the limits of a script's format.
    #[inline(always)]
    pub(crate) fn is_quick(self) -> bool
        ensures { result ≡ is_quick self }
    {
        match self {
            Dialect::Run => true,
            Dialect::Live => false,
            Dialect::Audit => false,
            Dialect::Chain => true,
            Dialect::Lasting => true,
        }
    }

    /// Whether it has hops.
    #[tactic(auto, unfolding(crate::specs::Dialect::is_live))]
    #[inline(always)]
    pub(crate) fn has_hops(self) -> bool
        ensures { result ≡ has_form self Form.Hop }
    {
        match self {
            Dialect::Run => true,
            Dialect::Live => false,
            Dialect::Audit => true,
            Dialect::Chain => false,
            Dialect::Lasting => true,
        }
    }

    /// Why a line is refused that has a form which it has not.
    pub fn lacking(self) -> Cause
        ensures { result ≡ lacking self }
    {
        match self {
            Dialect::Run => Cause::BadAct,
            Dialect::Live => Cause::NotLive,
            Dialect::Audit => Cause::BadAct,
            Dialect::Chain => Cause::BadAct,
            Dialect::Lasting => Cause::BadAct,
        }
    }
}
