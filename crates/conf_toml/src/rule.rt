//! The rules of a servant manager.
ghost use Rattle.std.specs.Prelude.{◌≡◌, ◌≤◌, ◌||◌, ℕ, [], length, codes, IfOk, IfErr};
ghost use Rattle.toml.specs.View.{view, table_view, items_view};
ghost use Rattle.conf_fields.specs.Entries.{entries_of};
ghost use Rattle.conf_fields.specs.FieldGives.{FieldGives as Answers};
ghost use Rattle.conf_fields.specs.Look.{wanted, text_in, only_known};
ghost use Rattle.conf_fields.specs.Numbers.{Find, IsNumber, find_in};
ghost use Rattle.poa_policy.specs.Adapters.{AreRules, GivesWithin};
ghost use Rattle.std.specs.List.{AllByRecursion};
ghost use Rattle.conf_fields.specs.declared.ConfFault.TheVariants as fault;
ghost use Rattle.conf_fields.specs.declared.Place.TheVariants as place;
ghost use Rattle.poa_base.specs.Policies.{is_servant_manager as the_servant_manager};
ghost use Rattle.conf_toml.specs.Rules.{matched as the_matched, no_other as the_no_other, not_raised as the_not_raised, way_of as the_way_of, fresh_at as the_fresh_at, servant_given as the_servant_given, forward_given as the_forward_given, raise_given as the_raise_given, given_by as the_given_by, rule_at as the_rule_at, rule_in, rule_after, rules_at as the_rules_at, is_empty as the_empty, rule_keys as the_rule_keys};

use conf_fields::{
    ConfFault, Numbers, Place, at_most, has, host_at, id_of_text, items_at, known_keys, member_at,
    none_of, number_named, number_or, only_if, port_at, table_in, word_at, wrong,
};
use poa_base::minors::completion_of;
use poa_base::{Endpoint, Gives, Items, Oid, PolicySet, RuleConf, SysExc};
use std::alloc::Global;
use toml::{Table, Value};

/// The way that the keys of a rule choose.
#[derive(Clone, Copy, Drop)]
pub enum Way {
    Fresh,
    Servant,
    Forward,
    Raise,
    /// The rule has none of these keys.
    Missing,
}

#[tactic(auto, unfolding(crate::specs::Rules::way_of))]
fn way_of(table: &Table) -> Way
    ensures { result ≡ the_way_of (table_view table.now) }
{
    if has(table, "fresh") {
        return Way::Fresh;
    }
    if has(table, "servant") {
        return Way::Servant;
    }
    if has(table, "forward_host") || has(table, "forward_port") {
        return Way::Forward;
    }
    if has(table, "raise") || has(table, "minor") {
        return Way::Raise;
    }
    Way::Missing
}

/// Which objects the word is for: `*` for all, an id for one, and none where it is out of form.
#[tactic(auto, unfolding(crate::specs::Rules::matched))]
fn matched(alloc: Global, text: &str) -> Result<Option<Option<Oid>>, ConfFault>
    ensures value { IfOk result (λ found. the_matched text.now ≡ found) }
    ensures memory { IfErr result (λ e. e ≡ fault.WantMemory) }
{
    if text == "*" {
        return Ok(Some(None));
    }
    match id_of_text(alloc, text)? {
        Some(id) => Ok(Some(Some(id))),
        None => Ok(None),
    }
}

fn matched_at(alloc: Global, at: Place, table: &Table) -> Result<Option<Oid>, ConfFault>
    ensures { Answers result (wanted (text_in the_matched) at (codes "id") (table_view table.now)) }
{
    let Some(value) = member_at(table, "id") else {
        return wrong(alloc, at, "id");
    };
    let Some(text) = value.as_str() else {
        return wrong(alloc, at, "id");
    };
    match matched(alloc, text)? {
        Some(oid) => Ok(oid),
        None => wrong(alloc, at, "id"),
    }
}

#[tactic(auto, unfolding(crate::specs::Rules::no_other))]
fn no_other(alloc: Global, at: Place, table: &Table) -> Result<(), ConfFault>
    ensures { Answers result (the_no_other at (table_view table.now)) }
{
    let keys = ["servant", "forward_host", "forward_port", "raise", "minor"];
    none_of(alloc, at, table, &keys)
}

#[tactic(auto, unfolding(crate::specs::Rules::not_raised))]
fn not_raised(alloc: Global, at: Place, table: &Table) -> Result<(), ConfFault>
    ensures { Answers result (the_not_raised at (table_view table.now)) }
{
    none_of(alloc, at, table, &["raise", "minor"])
}

#[tactic(auto, unfolding(crate::specs::Rules::fresh_at))]
fn fresh_at(
    alloc: Global,
    at: Place,
    policies: &PolicySet,
    table: &Table,
) -> Result<Gives, ConfFault>
    ensures value { Answers result (the_fresh_at at policies.now (table_view table.now)) }
    ensures within { (servants : Find)
        → IfOk result (GivesWithin (IsNumber servants) policies.now) }
{
    let kind = word_at(alloc, at, table, "fresh")?;
    only_if(alloc, at, "fresh", policies.retains())?;
    no_other(alloc, at, table)?;
    Ok(Gives::Fresh(kind))
}

#[tactic(auto, unfolding(crate::specs::Rules::servant_given))]
fn servant_given(
    alloc: Global,
    at: Place,
    servants: &Numbers,
    table: &Table,
) -> Result<Gives, ConfFault>
    ensures value { Answers result
        (the_servant_given at (find_in servants.now) (table_view table.now)) }
    ensures within { (set : PolicySet)
        → IfOk result (GivesWithin (IsNumber (find_in servants.now)) set) }
{
    let servant = number_named(alloc, servants, at, table, "servant")?;
    none_of(
        alloc,
        at,
        table,
        &["forward_host", "forward_port", "raise", "minor"],
    )?;
    Ok(Gives::Servant(servant))
}

#[tactic(auto, unfolding(crate::specs::Rules::forward_given))]
fn forward_given(alloc: Global, at: Place, table: &Table) -> Result<Gives, ConfFault>
    ensures value { Answers result (the_forward_given at (table_view table.now)) }
    ensures within { (servants : Find) (set : PolicySet)
        → IfOk result (GivesWithin (IsNumber servants) set) }
{
    let host = host_at(alloc, at, table, "forward_host")?;
    let port = port_at(alloc, at, table, "forward_port")?;
    not_raised(alloc, at, table)?;
    Ok(Gives::Forward(Endpoint { host, port }))
}

#[tactic(auto, unfolding(crate::specs::Rules::raise_given))]
fn raise_given(alloc: Global, at: Place, table: &Table) -> Result<Gives, ConfFault>
    ensures value { Answers result (the_raise_given at (table_view table.now)) }
    ensures within { (servants : Find) (set : PolicySet)
        → IfOk result (GivesWithin (IsNumber servants) set) }
{
    let name = word_at(alloc, at, table, "raise")?;
    let minor = number_or(alloc, at, table, "minor", u32::MAX, 0)?;
    let done = completion_of(minor);
    Ok(Gives::Raise(SysExc { name, minor, done }))
}

fn given_by(
    alloc: Global,
    way: Way,
    at: Place,
    servants: &Numbers,
    policies: &PolicySet,
    table: &Table,
) -> Result<Gives, ConfFault>
    ensures value { Answers result
        (the_given_by way at (find_in servants.now) policies.now (table_view table.now)) }
    ensures within { IfOk result (GivesWithin (IsNumber (find_in servants.now)) policies.now) }
{
    match way {
        Way::Fresh => fresh_at(alloc, at, policies, table),
        Way::Servant => servant_given(alloc, at, servants, table),
        Way::Forward => forward_given(alloc, at, table),
        Way::Raise => raise_given(alloc, at, table),
        Way::Missing => wrong(alloc, at, "fresh"),
    }
}

#[tactic(auto, unfolding(crate::specs::Rules::rule_at))]
fn rule_at(
    alloc: Global,
    at: Place,
    servants: &Numbers,
    policies: &PolicySet,
    table: &Table,
) -> Result<RuleConf, ConfFault>
    ensures value { Answers result
        (the_rule_at at (find_in servants.now) policies.now (table_view table.now)) }
    ensures within { IfOk result
        (λ r. GivesWithin (IsNumber (find_in servants.now)) policies.now r.gives) }
{
    let oid = matched_at(alloc, at, table)?;
    let gives = given_by(alloc, way_of(table), at, servants, policies, table)?;
    rule_keys(alloc, at, table)?;
    Ok(RuleConf { oid, gives })
}

#[tactic(auto, unfolding(crate::specs::Rules::rule_in))]
fn next_rule(
    alloc: Global,
    at: Place,
    servants: &Numbers,
    policies: &PolicySet,
    value: &Value,
) -> Result<RuleConf, ConfFault>
    ensures value { Answers result
        (rule_in at (find_in servants.now) policies.now (view value.now)) }
    ensures within { IfOk result
        (λ r. GivesWithin (IsNumber (find_in servants.now)) policies.now r.gives) }
{
    let table = table_in(alloc, at, value)?;
    rule_at(alloc, at, servants, policies, table)
}

fn entries(
    alloc: Global,
    i: u32,
    servants: &Numbers,
    policies: &PolicySet,
    values: &[Value],
) -> Result<Items<RuleConf>, ConfFault>
    requires { length values.now ≤ 1024 }
    ensures value { Answers result
        (entries_of (rule_after i (find_in servants.now) policies.now) [] (items_view values.now)) }
    ensures within { IfOk result
        (λ rules. AllByRecursion
        (λ r. GivesWithin (IsNumber (find_in servants.now)) policies.now r.gives) rules) }
    ensures count { IfOk result (λ rules. length rules ≡ length values.now) }
{
    let mut rules = Vec::new(alloc);
    for (j, value) in values.iter().enumerate() {
        let rule = next_rule(alloc, Place::Rule(i, j as u32), servants, policies, value)?;
        let Ok(()) = rules.push(rule) else {
            return Err(ConfFault::WantMemory);
        };
    }
    Ok(Items::from_vec(rules))
}

/// The rules of the adapter at index `i`.
#[tactic(auto, unfolding(crate::specs::Rules::rules_at))]
pub(crate) fn rules_at(
    alloc: Global,
    i: u32,
    servants: &Numbers,
    policies: &PolicySet,
    table: &Table,
) -> Result<Items<RuleConf>, ConfFault>
    ensures value { Answers result
        (the_rules_at i (find_in servants.now) policies.now (table_view table.now)) }
    ensures rules { IfOk result
        (λ rules. AreRules (IsNumber (find_in servants.now)) policies.now rules) }
{
    let at = Place::Adapter(i);
    let values = items_at(alloc, at, table, "rule")?;
    let allowed = may_have(values, policies);
    only_if(alloc, at, "rule", allowed)?;
    let few = at_most(alloc, at, "rule", values, 1024)?;
    entries(alloc, i, servants, policies, few)
}

#[tactic(auto, using(crate::proofs::Counting::emptiness))]
fn may_have(values: &[Value], policies: &PolicySet) -> bool
    ensures { result ≡ (the_empty (items_view values.now)
        || the_servant_manager policies.now.processing) }
{
    let none = values.is_empty();
    none || policies.uses_servant_manager()
}

#[tactic(auto, unfolding(crate::specs::Rules::rule_keys))]
fn rule_keys(alloc: Global, at: Place, table: &Table) -> Result<(), ConfFault>
    ensures { Answers result (only_known the_rule_keys at (table_view table.now)) }
{
    let keys = [
        "id",
        "fresh",
        "servant",
        "forward_host",
        "forward_port",
        "raise",
        "minor",
    ];
    known_keys(alloc, at, table, &keys)
}
