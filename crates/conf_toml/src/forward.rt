//! The endpoint table of a configuration.
ghost use Rattle.std.specs.Prelude.{◌≡◌, ◌≤◌, true, [], length, None, IfOk};
ghost use Rattle.toml.specs.View.{view, table_view, items_view};
ghost use Rattle.std.specs.List.{list_all};
ghost use Rattle.text_words.specs.Name.{is_name};
ghost use Rattle.text_words.specs.Path.{path_text};
ghost use Rattle.poa_policy.specs.Adapters.{IsEndpoint};
ghost use Rattle.poa_policy.specs.Entries.{EachAfter};
ghost use Rattle.poa_policy.specs.Kept.{IsForward};
ghost use Rattle.conf_fields.specs.Entries.{entries_of};
ghost use Rattle.conf_fields.specs.FieldGives.{FieldGives, GivesView};
ghost use Rattle.conf_fields.specs.Numbers.{find_in, noted, place_of};
ghost use Rattle.conf_fields.specs.declared.Place.TheVariants as place;
ghost use Rattle.conf_toml.specs.Forwards.{forward_at as the_forward_at, forward_in, forward_after, forward_paths, forwards_of};

use conf_fields::{
    ConfFault, Numbers, Place, entries_at, host_at, known_keys, no_numbers, not_twice, note,
    path_at, port_at, table_in,
};
use poa_base::{Endpoint, ForwardConf, Items};
use std::alloc::Global;
use toml::{Table, Value};

/// An entry, and its path's text.
#[tactic(auto, unfolding(crate::specs::Forwards::forward_at))]
fn forward_at<'a>(
    alloc: Global,
    at: Place,
    paths: &Numbers,
    table: &'a Table,
) -> Result<(ForwardConf, &'a str), ConfFault>
    ensures value { GivesView (λ p. p.0) result
        (the_forward_at at (find_in paths.now) (table_view table.now)) }
    ensures name { IfOk result (λ p. p.1.now ≡ path_text p.0.path) }
    ensures fresh { IfOk result (λ p. find_in paths.now (path_text p.0.path) ≡ None) }
    ensures written { IfOk result
        (λ p. (length p.0.path ≤ 16) × (list_all is_name p.0.path ≡ true)) }
    ensures endpoint { IfOk result (λ p. IsEndpoint p.0.endpoint) }
{
    let (path, text) = path_at(alloc, at, table, "path")?;
    not_twice(alloc, paths, at, "path", text)?;
    let host = host_at(alloc, at, table, "host")?;
    let port = port_at(alloc, at, table, "port")?;
    known_keys(alloc, at, table, &["path", "host", "port"])?;
    let endpoint = Endpoint { host, port };
    Ok((ForwardConf { path, endpoint }, text))
}

/// Reads the entry at index `i`, and notes its path.
fn next_forward(
    alloc: Global,
    i: u32,
    value: &Value,
    paths: &mut Numbers,
) -> Result<ForwardConf, ConfFault>
    ensures entry { FieldGives result
        (forward_in (place.Forward i) (find_in paths.old) (view value.now)) }
    ensures fresh { IfOk result (λ f. find_in paths.old (path_text f.path) ≡ None) }
    ensures written { IfOk result (λ f. (length f.path ≤ 16) × (list_all is_name f.path ≡ true)) }
    ensures endpoint { IfOk result (λ f. IsEndpoint f.endpoint) }
    ensures noted { IfOk result
        (λ f. find_in paths.new ≡ noted (path_text f.path) i (find_in paths.old)) }
{
    let at = Place::Forward(i);
    let table = table_in(alloc, at, value)?;
    let (forward, text) = forward_at(alloc, at, paths, table)?;
    note(alloc, paths, text, i)?;
    Ok(forward)
}

fn entries(
    alloc: Global,
    values: &[Value],
    paths: &mut Numbers,
) -> Result<Items<ForwardConf>, ConfFault>
    requires few { length values.now ≤ 1024 }
    requires start { find_in paths.old ≡ place_of (forward_paths []) }
    ensures value { FieldGives result (entries_of forward_after [] (items_view values.now)) }
    ensures kept { IfOk result (λ forwards. EachAfter IsForward [] forwards) }
    ensures few { IfOk result (λ forwards. length forwards ≤ 1024) }
{
    let mut forwards = Vec::new(alloc);
    for (i, value) in values.iter().enumerate() {
        let forward = next_forward(alloc, i as u32, value, paths)?;
        let Ok(()) = forwards.push(forward) else {
            return Err(ConfFault::WantMemory);
        };
    }
    Ok(Items::from_vec(forwards))
}

/// The endpoint table of the document.
#[tactic(auto, unfolding(crate::specs::Forwards::forwards_of))]
pub(crate) fn forwards(alloc: Global, top: &Table) -> Result<Items<ForwardConf>, ConfFault>
    ensures value { FieldGives result (forwards_of (table_view top.now)) }
    ensures kept { IfOk result (λ forwards. EachAfter IsForward [] forwards) }
    ensures few { IfOk result (λ forwards. length forwards ≤ 1024) }
{
    let values = entries_at(alloc, Place::Top, top, "forward", 1024)?;
    let mut paths = no_numbers(alloc);
    entries(alloc, values, &mut paths)
}
