//! How do the lists of names and of watchers change, and what takes no memory?

ghost use Rattle.std.specs.Prelude.{bytes_eq, ◌≡◌, ◌+◌, ◌<◌, ◌≤◌, ◌++◌, [], ◌∷◌};
ghost use Rattle.std.specs.List.{list_any};
ghost use Rattle.std.specs.Option.{option_to_list};
ghost use Rattle.std.specs.Vec.{vec_len, vec_capacity};
ghost use Rattle.hb_club.specs.Seating.{other_watchers, shadow_of, without};

use hb_io::Name;

/// Appends an item. There is room for it.
pub(crate) fn put<T: Drop>(list: &mut Vec<T>, item: T)
    requires { vec_len list.old < vec_capacity list.old }
    ensures items { list.new.items ≡ list.old.items ++ item ∷ [] }
    ensures len { vec_len list.new ≡ vec_len list.old + 1 }
    ensures capacity { vec_capacity list.old ≤ vec_capacity list.new }
{
    let _ = list.push(item);
}

/// Puts an item in front. There is room for it.
pub(crate) fn put_first<T: Drop>(list: &mut Vec<T>, item: T)
    requires { vec_len list.old < vec_capacity list.old }
    ensures items { list.new.items ≡ item ∷ list.old.items }
{
    let _ = list.insert(0, item);
}

pub(crate) fn is_same(a: &Name, b: &Name) -> bool
    ensures { result ≡ bytes_eq a.now b.now }
{
    a == b
}

/// Whether a name is there, and is this one.
pub(crate) fn is_named(name: &Option<Name>, member: &Name) -> bool
    ensures { result ≡ list_any (bytes_eq member.now) (option_to_list name.now) }
{
    match name {
        Some(name) => is_same(member, name),
        None => false,
    }
}

pub(crate) fn has_name(names: &[Name], name: &Name) -> bool
    ensures { result ≡ list_any (bytes_eq name.now) names.now }
{
    let mut found = false;
    for n in names {
        found |= is_same(name, n);
    }
    found
}

pub(crate) fn watches(watchers: &[(Name, Option<u8>)], name: &Name) -> bool
    ensures { result ≡ list_any (λ w. bytes_eq name.now w.0) watchers.now }
{
    let mut found = false;
    for w in watchers {
        found |= is_same(name, &w.0);
    }
    found
}

/// Takes a name out.
pub(crate) fn remove_name(names: &mut Vec<Name>, name: &Name)
    ensures items { names.new.items ≡ without name.now names.old.items }
    ensures len { vec_len names.new ≤ vec_len names.old }
    ensures capacity { vec_capacity names.new ≡ vec_capacity names.old }
{
    names.retain(|n| !is_same(n, name));
}

/// Takes a watcher out.
pub(crate) fn remove_watcher(watchers: &mut Vec<(Name, Option<u8>)>, name: &Name)
    ensures items { watchers.new.items ≡ other_watchers name.now watchers.old.items }
    ensures len { vec_len watchers.new ≤ vec_len watchers.old }
    ensures capacity { vec_capacity watchers.new ≡ vec_capacity watchers.old }
{
    watchers.retain(|w| !is_same(&w.0, name));
}

/// How a watcher watches: as the shadow of a seat, or plainly.
pub(crate) fn shadow(watchers: &[(Name, Option<u8>)], name: &Name) -> Option<Option<u8>>
    ensures { result ≡ shadow_of name.now watchers.now }
{
    for w in watchers {
        if is_same(name, &w.0) {
            return Some(w.1);
        }
    }
    None
}
