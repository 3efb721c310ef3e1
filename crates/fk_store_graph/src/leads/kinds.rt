//! What kind of object a body is.
ghost use Rattle.std.specs.Prelude.{◌≡◌};
ghost use Rattle.fk_store_graph.specs.Leads.Births.{stored_birth};
ghost use Rattle.fk_store_graph.specs.Leads.Leading as leading;
ghost use Rattle.fk_store_graph.specs.Leads.Marks as marks_of;

use fk_model::Body;

/// The birth number of a space.
pub fn birth_of(body: &Body) -> Option<u32>
    ensures { result ≡ stored_birth body.now }
{
    match body {
        Body::Space { birth, .. } => Some(*birth),
        _ => None,
    }
}

/// It is a mapping or a region.
pub fn is_of_pages(body: &Body) -> bool
    ensures { result ≡ marks_of.is_of_pages body.now }
{
    matches!(body, Body::Mapping { .. } | Body::Region { .. })
}

/// It is a port in a set.
pub fn is_port_in_set(body: &Body) -> bool
    ensures { result ≡ marks_of.is_member body.now }
{
    match body {
        Body::Port { set, .. } => set.is_some(),
        _ => false,
    }
}

/// It is a reference.
pub fn is_reference(body: &Body) -> bool
    ensures { result ≡ leading.is_reference body.now }
{
    matches!(body, Body::Reference { .. })
}

/// Only a thread leads anywhere otherwise than by pointers.
pub fn may_tell(body: &Body) -> bool
    ensures { result ≡ leading.may_tell body.now }
{
    matches!(body, Body::Thread(_))
}
