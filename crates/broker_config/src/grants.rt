//! Grants in memory of their own.
ghost use Rattle.std.specs.Prelude.{◌≡◌, IfOk, string_bytes};
ghost use Rattle.realm.specs.Grants.{pairs_of};

use std::alloc::{AllocError, Global};

/// Equal grants, in memory of their own: authids with their roles, in the same order.
///
/// # Errors
/// Where a growth was refused.
pub fn copy_grants(
    alloc: Global,
    grants: &[(String, String)],
) -> Result<Vec<(String, String)>, AllocError>
    ensures { IfOk result (λ copy. pairs_of copy.items ≡ pairs_of grants.now) }
{
    let mut copy = Vec::with_capacity(alloc, grants.len())?;
    for (authid, role) in grants {
        copy.push(own(alloc, authid.as_str(), role.as_str())?)?;
    }
    Ok(copy)
}

// An authid and a role, in memory of their own.
fn own(alloc: Global, authid: &str, role: &str) -> Result<(String, String), AllocError>
    ensures { IfOk result (λ pair. (string_bytes pair.0 ≡ authid.now)
        × (string_bytes pair.1 ≡ role.now)) }
{
    let authid = String::from_str(alloc, authid)?;
    let role = String::from_str(alloc, role)?;
    Ok((authid, role))
}
