//! What ends a row: a refusal, a servant, the endpoint table.
ghost use Rattle.std.specs.Prelude.{◌≡◌};
ghost use Rattle.poa_choose.specs.Table.{refuse as the_refuse, serve as the_serve, forward_or as the_forward_or, inactive_rule};

use crate::{Choice, Facts, KeyFact};
use poa_base::minors::MANAGER_INACTIVE;
use poa_base::{Completion, Endpoint, ExcName, SysExc, Verdict};

/// An exception to a request, which didn't begin; to a locate, that the object is unknown.
pub fn refuse(facts: &Facts, name: ExcName, minor: u32) -> Choice
    ensures { result ≡ the_refuse facts.now name minor }
{
    if facts.locate {
        return Choice::Go(Verdict::Unknown);
    }
    let exception = SysExc {
        name,
        minor,
        done: Completion::No,
    };
    Choice::Go(Verdict::Refuse(exception))
}

/// A servant to a request; to a locate, that the object is here.
pub fn serve(facts: &Facts, verdict: Verdict) -> Choice
    ensures { result ≡ the_serve facts.now verdict }
{
    if facts.locate {
        return Choice::Go(Verdict::Here);
    }
    Choice::Go(verdict)
}

/// To where the endpoint table points, else that.
pub fn forward_or(entry: Option<Endpoint>, other: Choice) -> Choice
    ensures { result ≡ the_forward_or entry other }
{
    match entry {
        Some(endpoint) => Choice::Go(Verdict::Forward(endpoint)),
        None => other,
    }
}

/// What an INACTIVE manager says: the endpoint table is asked for persistent keys.
pub fn inactive(facts: Facts) -> Choice
    ensures { result ≡ inactive_rule facts }
{
    let refusal = refuse(&facts, ExcName::ObjAdapter, MANAGER_INACTIVE);
    match facts.key {
        KeyFact::Transient => refusal,
        _ => forward_or(facts.entry, refusal),
    }
}
