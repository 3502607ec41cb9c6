//! The addresses of groups.
ghost use Rattle.std.specs.Prelude.{◌≡◌};
ghost use Rattle.gb_rules.specs.Address.{is_addr};

use gb_types::Addr;

/// Returns true if both addresses name the same group: tenant, number and generation are equal.
pub fn is_same(addr: Addr, other: Addr) -> bool
    ensures { result ≡ is_addr addr other }
{
    addr.tenant == other.tenant && addr.group == other.group && addr.generation == other.generation
}
