//! Which rule of a servant manager is for an id.
ghost use Rattle.std.specs.Prelude.{◌≡◌, option_copied};
ghost use Rattle.history_standing.specs.Rules as rules;

use poa_base::RuleConf;

/// Whether a rule is for an id.
fn matches(oid: &[u8], rule: &RuleConf) -> bool
    ensures { result ≡ rules.matches oid.now rule.now }
{
    match &rule.oid {
        Some(wanted) => wanted.as_slice() == oid,
        None => true,
    }
}

/// The first rule that matches.
pub fn rule_for<'a>(all: &'a [RuleConf], oid: &[u8]) -> Option<&'a RuleConf>
    ensures { option_copied result ≡ rules.rule_for all.now oid.now }
{
    all.iter().find(|rule| matches(oid, rule))
}
