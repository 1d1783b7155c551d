//! The template of a path, looked up once for all that is asked of it.
ghost use Rattle.history_standing.specs.Templates as configured;
ghost use Rattle.history_standing.specs.Walks.{place_met as place_is};
ghost use Rattle.core_turns.specs.Templates.{IsTemplate};

use history_standing::Found;
use history_standing::templates::{children_at, entry_of, policies_at};
use history_standing::walks::place_met;
use poa_base::{AdapterConf, Children, Config, Name, PolicySet, RuleConf};

/// What a look at a call asks of the template of a path.
#[derive(Clone, Copy, Drop)]
pub struct Template<'a> {
    pub policies: PolicySet,
    pub manager: u32,
    pub children: Option<Children>,
    pub rules: &'a [RuleConf],
    pub tag: u16,
    pub old_keys: bool,
}

/// That of the root.
fn root_template<'a>(config: &Config, children: Option<Children>) -> Template<'a>
    ensures { IsTemplate (configured.root_template children) result }
{
    Template {
        policies: policies_at(config, &[]),
        manager: 0,
        children,
        rules: &[],
        tag: 0,
        old_keys: true,
    }
}

/// That of an entry.
fn entry_template(entry: &AdapterConf) -> Template<'_>
    ensures { IsTemplate entry.now result }
{
    Template {
        policies: entry.policies,
        manager: entry.manager,
        children: entry.children,
        rules: entry.rules.as_slice(),
        tag: entry.tag,
        old_keys: entry.old_keys,
    }
}

/// The template of a path; what is asked of the root's where it has none.
pub fn template_of<'a>(config: &'a Config, path: &[Name]) -> Template<'a>
    ensures { IsTemplate (configured.template_or_root config.now path.now) result }
{
    match path {
        [] => root_template(config, children_at(config, path)),
        [_, ..] => match entry_of(config, path) {
            Some(entry) => entry_template(entry),
            None => root_template(config, None),
        },
    }
}

/// That of the adapter that the walk along a path meets, given that of the path.
pub fn template_met<'a>(
    config: &'a Config,
    found: Found,
    path: &[Name],
    own: Template<'a>,
) -> Template<'a>
    ensures { IsTemplate (configured.template_or_root config.now path.now) own.entry
        → IsTemplate (configured.template_or_root config.now (place_is found path.now)) result }
{
    match found {
        Found::Live(_) | Found::Dying(_) => own,
        Found::Missing { .. } => template_of(config, place_met(found, path)),
    }
}
