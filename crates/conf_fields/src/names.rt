//! Names, hosts, paths and object ids, and the text that some were read from.
ghost use Rattle.std.specs.Prelude.{◌≡◌, ◌≤◌, true, length, Option, Some, None, IfOk, IfErr, IfSome, List, ℕ};
ghost use Rattle.toml.specs.View.{view, table_view};
ghost use Rattle.text_words.specs.Identity.{id_of};
ghost use Rattle.text_words.specs.Name.{name_of, host_of, is_name, is_host};
ghost use Rattle.std.specs.List.{list_all};
ghost use Rattle.text_words.specs.Path.{path_names_of, path_text};
ghost use Rattle.text_words.specs.WordGives.{WordGives};
ghost use Rattle.conf_fields.specs.declared.fault.ConfFault.TheVariants as fault;
ghost use Rattle.conf_fields.specs.FieldGives.{FieldGives, GivesView};
ghost use Rattle.conf_fields.specs.Look.{wanted, with_default, text_in};
ghost use Rattle.conf_fields.specs.Paths.{path_at as the_path_at, shallow as the_shallow};

use crate::fault::ConfFault;
use crate::faulty::{limited, wrong};
use crate::lookup::member_at;
use crate::place::Place;
use poa_base::{Bytes, Items, Name, Oid, Path};
use std::alloc::Global;
use text_words::WordFault;
use toml::Table;

/// What was read of a word, or none where the word is out of form.
fn readable<T>(read: Result<T, WordFault>) -> Result<Option<T>, ConfFault>
    ensures value { (meant : Option T) → WordGives read meant → IfOk result (λ found. meant ≡ found) }
    ensures memory { IfErr result (λ e. e ≡ fault.WantMemory) }
{
    match read {
        Ok(x) => Ok(Some(x)),
        Err(WordFault::OutOfForm) => Ok(None),
        Err(WordFault::WantMemory) => Err(ConfFault::WantMemory),
    }
}

#[tactic(auto, using(crate::proofs::Formed::named))]
fn name_of_text(alloc: Global, text: &str) -> Result<Option<Name>, ConfFault>
    ensures value { IfOk result (λ found. name_of text.now ≡ found) }
    ensures named { IfOk result (λ found. IfSome found (λ n. is_name n ≡ true)) }
    ensures memory { IfErr result (λ e. e ≡ fault.WantMemory) }
{
    readable(text_words::name(alloc, text.as_bytes()))
}

#[tactic(auto, using(crate::proofs::Formed::hosted))]
fn host_of_text(alloc: Global, text: &str) -> Result<Option<Bytes>, ConfFault>
    ensures value { IfOk result (λ found. host_of text.now ≡ found) }
    ensures host { IfOk result (λ found. IfSome found (λ h. is_host h ≡ true)) }
    ensures memory { IfErr result (λ e. e ≡ fault.WantMemory) }
{
    readable(text_words::host(alloc, text.as_bytes()))
}

fn path_of_text(alloc: Global, text: &str) -> Result<Option<Items<Name>>, ConfFault>
    ensures value { IfOk result (λ found. path_names_of text.now ≡ found) }
    ensures text { IfOk result (λ found. IfSome found (λ names. text.now ≡ path_text names)) }
    ensures named { IfOk result (λ found. IfSome found (λ names. list_all is_name names ≡ true)) }
    ensures memory { IfErr result (λ e. e ≡ fault.WantMemory) }
{
    match text_words::path_names(alloc, text.as_bytes()) {
        Ok(names) => Ok(Some(names)),
        Err(WordFault::OutOfForm) => Ok(None),
        Err(WordFault::WantMemory) => Err(ConfFault::WantMemory),
    }
}

/// A name that has to be there, with its text.
pub fn name_at<'a>(
    alloc: Global,
    at: Place,
    table: &'a Table,
    key: &str,
) -> Result<(Name, &'a str), ConfFault>
    ensures value { GivesView (λ p. p.0) result (wanted (text_in name_of) at key.now (table_view table.now)) }
    ensures text { IfOk result (λ p. p.1.now ≡ p.0) }
    ensures named { IfOk result (λ p. is_name p.0 ≡ true) }
{
    let Some(value) = member_at(table, key) else {
        return wrong(alloc, at, key);
    };
    let Some(text) = value.as_str() else {
        return wrong(alloc, at, key);
    };
    match name_of_text(alloc, text)? {
        Some(name) => Ok((name, text)),
        None => wrong(alloc, at, key),
    }
}

/// A host that has to be there.
pub fn host_at(alloc: Global, at: Place, table: &Table, key: &str) -> Result<Bytes, ConfFault>
    ensures value { FieldGives result (wanted (text_in host_of) at key.now (table_view table.now)) }
    ensures host { IfOk result (λ h. is_host h ≡ true) }
{
    let Some(value) = member_at(table, key) else {
        return wrong(alloc, at, key);
    };
    let Some(text) = value.as_str() else {
        return wrong(alloc, at, key);
    };
    match host_of_text(alloc, text)? {
        Some(host) => Ok(host),
        None => wrong(alloc, at, key),
    }
}

/// A host, or the default, which is one.
pub fn host_or(
    alloc: Global,
    at: Place,
    table: &Table,
    key: &str,
    default: &str,
) -> Result<Bytes, ConfFault>
    requires { is_host default.now ≡ true }
    ensures value { FieldGives result (with_default (text_in host_of) default.now at key.now (table_view table.now)) }
    ensures host { IfOk result (λ h. is_host h ≡ true) }
{
    let Some(value) = member_at(table, key) else {
        let bytes = Vec::from_slice(alloc, default.as_bytes())?;
        return Ok(Bytes::from_vec(bytes));
    };
    let Some(text) = value.as_str() else {
        return wrong(alloc, at, key);
    };
    match host_of_text(alloc, text)? {
        Some(host) => Ok(host),
        None => wrong(alloc, at, key),
    }
}

fn names_at<'a>(
    alloc: Global,
    at: Place,
    table: &'a Table,
    key: &str,
) -> Result<(Items<Name>, &'a str), ConfFault>
    ensures value { GivesView (λ p. p.0) result (wanted (text_in path_names_of) at key.now (table_view table.now)) }
    ensures text { IfOk result (λ p. p.1.now ≡ path_text p.0) }
    ensures named { IfOk result (λ p. list_all is_name p.0 ≡ true) }
{
    let Some(value) = member_at(table, key) else {
        return wrong(alloc, at, key);
    };
    let Some(text) = value.as_str() else {
        return wrong(alloc, at, key);
    };
    match path_of_text(alloc, text)? {
        Some(names) => Ok((names, text)),
        None => wrong(alloc, at, key),
    }
}

fn shallow(alloc: Global, at: Place, key: &str, names: Items<Name>) -> Result<Path, ConfFault>
    ensures value { FieldGives result (the_shallow at key.now names) }
    ensures same { IfOk result (λ path. (path ≡ names) × (length path ≤ 16)) }
{
    match Path::from_vec(names.into_vec()) {
        Some(path) => Ok(path),
        None => limited(alloc, at, key),
    }
}

/// A path that has to be there, of at most 16 names, with its text.
#[tactic(auto, unfolding(crate::specs::Paths::path_at))]
pub fn path_at<'a>(
    alloc: Global,
    at: Place,
    table: &'a Table,
    key: &str,
) -> Result<(Path, &'a str), ConfFault>
    ensures value { GivesView (λ p. p.0) result (the_path_at at key.now (table_view table.now)) }
    ensures few { IfOk result (λ p. length p.0 ≤ 16) }
    ensures text { IfOk result (λ p. p.1.now ≡ path_text p.0) }
    ensures named { IfOk result (λ p. list_all is_name p.0 ≡ true) }
{
    let (names, text) = names_at(alloc, at, table, key)?;
    let path = shallow(alloc, at, key, names)?;
    Ok((path, text))
}

/// The object id of a text in any spelling, or none where it is out of form.
pub fn id_of_text(alloc: Global, text: &str) -> Result<Option<Oid>, ConfFault>
    ensures value { IfOk result (λ found. id_of text.now ≡ found) }
    ensures memory { IfErr result (λ e. e ≡ fault.WantMemory) }
{
    readable(text_words::any_identity(alloc, text.as_bytes()))
}

/// An object id that has to be there.
pub fn id_at(alloc: Global, at: Place, table: &Table, key: &str) -> Result<Oid, ConfFault>
    ensures { FieldGives result (wanted (text_in id_of) at key.now (table_view table.now)) }
{
    let Some(value) = member_at(table, key) else {
        return wrong(alloc, at, key);
    };
    let Some(text) = value.as_str() else {
        return wrong(alloc, at, key);
    };
    match id_of_text(alloc, text)? {
        Some(id) => Ok(id),
        None => wrong(alloc, at, key),
    }
}
