//! Which authid may be asked for, and the role that goes with it.
ghost use Rattle.std.specs.Prelude.{◌≡◌, ℕ, List, [], ◌∷◌, map, IfOk, OnOk};
ghost use Rattle.std.specs.String.{string_bytes};
ghost use Rattle.std.specs.Option.{option_copied};
ghost use Rattle.indexmap.specs.IndexMap.{get_by_text};
ghost use Rattle.realm.specs.Grants.{first_of, pairs_of, role_in};

use crate::fault::Fault;
use indexmap::IndexMap;
use message_tree::Text;
use std::alloc::Global;
use std::marker::Model;
use std::snapshot::Snapshot;

/// The authids that may be asked for, each with its role. Of two pairs of one authid the first
/// counts. Contracts see the pairs as they were given, by a snapshot that takes no memory.
#[derive(Drop)]
pub struct Grants {
    roles: IndexMap<String, Text>,
    given: Snapshot<Vec<(String, String)>>,
}

impl Model for Grants {
    ghost use Rattle.std.specs.Prelude.{◌≡◌, ℕ, List};
    ghost use Rattle.indexmap.specs.IndexMap.{get_by_text};
    ghost use Rattle.realm.specs.Grants.{pairs_of, role_in};

    ghost Value = { List (List ℕ × List ℕ) };

    ghost view = { λ g. pairs_of g.given.value.items };

    ghost invariant = { λ g. (name : List ℕ)
        → get_by_text g.roles name ≡ role_in (pairs_of g.given.value.items) name };
}

impl Grants {
    /// The grants of these pairs of authid and role.
    pub fn of(alloc: Global, pairs: Vec<(String, String)>) -> Result<Grants, Fault>
        ensures { IfOk result (λ grants. grants ≡ pairs_of pairs.items) }
    {
        let given = Snapshot::of(&pairs);
        let roles = roles_of(alloc, pairs)?;
        Ok(Grants { roles, given })
    }

    /// The role of an authid that may be asked for.
    pub fn role_of(&self, authid: &str) -> Option<&Text>
        ensures { option_copied result ≡ role_in self.now authid.now }
    {
        self.roles.get(authid)
    }
}

/// The role of each authid: that of its first pair.
fn roles_of(alloc: Global, pairs: Vec<(String, String)>) -> Result<IndexMap<String, Text>, Fault>
    ensures { IfOk result (λ roles. (name : List ℕ)
        → get_by_text roles name ≡ role_in (pairs_of pairs.items) name) }
{
    let mut roles = IndexMap::new(alloc);
    for (authid, role) in pairs {
        keep_first(&mut roles, authid, Text::from_string(role))?;
    }
    Ok(roles)
}

/// Keeps the role of an authid that has none yet.
fn keep_first(roles: &mut IndexMap<String, Text>, authid: String, role: Text) -> Result<(), Fault>
    ensures { OnOk result ((name : List ℕ)
        → get_by_text roles.new name
        ≡ first_of (get_by_text roles.old name) (role_in ((string_bytes authid, role) ∷ []) name)) }
{
    if !roles.contains_key(authid.as_str()) {
        roles.insert(authid, role)?;
    }
    Ok(())
}
