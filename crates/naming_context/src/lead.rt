//! Where a name leads.
ghost use Rattle.std.specs.Prelude.{◌≡◌};
ghost use Rattle.std.specs.List.{list_all};
ghost use Rattle.naming_context.specs.Kept.{standing_of};
ghost use Rattle.naming_context.specs.Leading.{lead as lead_of, lead_from as lead_from_of, seen_lead, stops as stops_at};
ghost use Rattle.naming_context.specs.Names.{is_component as is_component_of, is_name as is_name_of};

use crate::component::Component;
use crate::contexts::Contexts;
use crate::reason::Reason;
use crate::target::Target;

/// A name has at most so many components.
const MOST_COMPONENTS: usize = 64;

/// An id or a kind has at most so many bytes.
const MOST_BYTES: usize = 255;

/// Where a name leads.
#[derive(Clone, Copy)]
pub enum Lead<'a> {
    /// It ends on this component of this context.
    Ends {
        context: u32,
        component: &'a Component,
    },
    /// The first component of this rest can't be followed.
    Stops {
        why: Reason,
        rest: &'a [Component],
    },
    /// It isn't a name that a context takes.
    NoName,
}

impl Contexts {
    /// Where a name leads from a context on.
    pub(crate) fn lead<'a>(&self, context: u32, name: &'a [Component]) -> Lead<'a>
        ensures { seen_lead result ≡ lead_of (standing_of self.now) context name.now }
    {
        if is_name(name) {
            self.lead_from(context, name)
        } else {
            Lead::NoName
        }
    }

    // The same of what is a name.
    fn lead_from<'a>(&self, context: u32, name: &'a [Component]) -> Lead<'a>
        ensures { seen_lead result ≡ lead_from_of (standing_of self.now) context name.now }
    {
        let mut at = context;
        let mut rest = name;
        while let [component, behind @ ..] = rest {
            if behind.is_empty() {
                return Lead::Ends {
                    context: at,
                    component,
                };
            }
            match self.find(at, component) {
                Some(Target::Context(next)) => {
                    at = *next;
                    rest = behind;
                }
                Some(Target::Reference(_)) => return stops(Reason::NotContext, rest),
                None => return stops(Reason::MissingNode, rest),
            }
        }
        Lead::NoName
    }
}

// The first component of this rest can't be followed.
fn stops(why: Reason, rest: &[Component]) -> Lead<'_>
    ensures { seen_lead result ≡ stops_at why rest.now }
{
    Lead::Stops { why, rest }
}

// Whether it is a name that a context takes.
fn is_name(name: &[Component]) -> bool
    ensures { result ≡ is_name_of name.now }
{
    !name.is_empty() && name.len() <= MOST_COMPONENTS && has_components(name)
}

fn has_components(name: &[Component]) -> bool
    ensures { result ≡ list_all is_component_of name.now }
{
    name.iter().all(is_component)
}

fn is_component(component: &Component) -> bool
    ensures { result ≡ is_component_of component.now }
{
    component.id.as_slice().len() <= MOST_BYTES && component.kind.as_slice().len() <= MOST_BYTES
}
