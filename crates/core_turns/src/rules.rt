//! What the rules of a servant manager give.
ghost use Rattle.std.specs.Prelude.{◌≡◌, IfOk, Some, None};
ghost use Rattle.poa_base.specs.declared.Incarnation.TheVariants.{Named, Raise};
ghost use Rattle.poa_choose.specs.declared.Located.{Located};
ghost use Rattle.history_standing.specs.Rules as rules;
ghost use Rattle.history_standing.specs.Templates.{servant_name};
ghost use Rattle.core_standing.specs.Seen.{seen};

use core_standing::Standing;
use core_standing::rules::rule_for;
use core_standing::searches::is_in_map;
use history_standing::Activation;
use history_standing::templates::{policies_at, rules_at, servant_name};
use poa_base::{
    Completion, Config, ExcName, Gives, Incarnation, RuleConf, Sid, SysExc, WantMemory, minors,
};
use poa_choose::Located;

/// The id isn't active.
const NOT_ACTIVE: SysExc = SysExc {
    name: ExcName::ObjectNotExist,
    minor: minors::NOT_ACTIVE,
    done: Completion::No,
};

/// A configured servant is brought.
fn named(config: &Config, servant: u32) -> Result<Incarnation, WantMemory>
    ensures { IfOk result
        (λ answer. answer ≡ elim (servant_name config.now servant) [
          | Some name ↦ Named
              name
          | None ↦ Raise rules.not_active
        ]) }
{
    match servant_name(config, servant) {
        Some(name) => Ok(Incarnation::Named(name.clone()?)),
        None => Ok(Incarnation::Raise(NOT_ACTIVE)),
    }
}

/// A configured servant is brought, unless ids are unique and it is in the map already.
fn named_or_double(
    config: &Config,
    standing: &Standing,
    activation: &Activation,
    servant: u32,
) -> Result<Incarnation, WantMemory>
    ensures { IfOk result
        (λ answer. answer ≡ rules.named_or_double config.now (seen standing.now) activation.now
        servant) }
{
    if policies_at(config, activation.path.as_slice()).is_unique()
        && is_in_map(standing, activation.adapter, Sid::Named(servant))
    {
        Ok(Incarnation::Double)
    } else {
        named(config, servant)
    }
}

/// What the servant activator brings for an activation that was begun.
pub fn brought(
    config: &Config,
    standing: &Standing,
    activation: &Activation,
) -> Result<Incarnation, WantMemory>
    ensures { IfOk result
        (λ answer. answer ≡ rules.brought config.now (seen standing.now) activation.now) }
{
    let Some(rule) = rule_for(
        rules_at(config, activation.path.as_slice()),
        activation.oid.as_slice(),
    ) else {
        return Ok(Incarnation::Raise(NOT_ACTIVE));
    };
    match &rule.gives {
        Gives::Fresh(_) => Ok(Incarnation::Fresh(activation.number)),
        Gives::Servant(servant) => named_or_double(config, standing, activation, *servant),
        Gives::Forward(endpoint) => Ok(Incarnation::Forward(endpoint.clone()?)),
        Gives::Raise(exception) => Ok(Incarnation::Raise(*exception)),
    }
}

/// The servant of a locator's rule.
fn located_servant(config: &Config, servant: u32) -> Result<Located, WantMemory>
    ensures { IfOk result
        (λ found. found ≡ elim (servant_name config.now servant) [
          | Some name ↦ Located.Servant
              name
          | None ↦ Located.NoRule
        ]) }
{
    match servant_name(config, servant) {
        Some(name) => Ok(Located::Servant(name.clone()?)),
        None => Ok(Located::NoRule),
    }
}

/// What a servant locator with these rules gives for an id.
pub fn located_among(config: &Config, all: &[RuleConf], oid: &[u8]) -> Result<Located, WantMemory>
    ensures { IfOk result
        (λ found. found ≡ rules.located_by config.now (rules.rule_for all.now oid.now)) }
{
    let Some(rule) = rule_for(all, oid) else {
        return Ok(Located::NoRule);
    };
    match &rule.gives {
        Gives::Fresh(_) => Ok(Located::NoRule),
        Gives::Servant(servant) => located_servant(config, *servant),
        Gives::Forward(endpoint) => Ok(Located::Forward(endpoint.clone()?)),
        Gives::Raise(exception) => Ok(Located::Raise(*exception)),
    }
}
