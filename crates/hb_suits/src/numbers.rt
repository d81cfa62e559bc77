//! Which number has an identity?

ghost use Rattle.std.specs.Prelude.{◌≡◌, ◌<◌, ◌≤◌, ◌↔◌, IsTrue, IsNone, IfSome};
ghost use Rattle.hb_rules.specs.Cards.{number, in_range, identity};
ghost use Rattle.hb_rules.specs.declared.limits.TheConstants.{IDENTITIES};

use hb_rules::{HIGHEST_RANK, IDENTITIES, Identity};

/// The number of an identity, 0 to 29 (this project's own): the five ranks of suit 0 come first,
/// then those of suit 1, and so on. The identity has a suit index of 0 to 5 and a rank of 1 to 5.
pub fn number(id: Identity) -> u8
    requires { IsTrue (in_range id) }
    ensures number { result ≡ number id }
    ensures low { result < IDENTITIES }
    ensures back { identity result ≡ id }
{
    id.suit * HIGHEST_RANK + (id.rank - 1)
}

/// The identity with a number, and `None` exactly from 30 up.
pub fn identity(number: u8) -> Option<Identity>
    ensures numbered { IfSome result (λ id. id ≡ identity number) }
    ensures in_range { IfSome result (λ id. IsTrue (in_range id)) }
    ensures none { IsNone result ↔ (IDENTITIES ≤ number) }
{
    (usize::from(number) < IDENTITIES).then_some(Identity {
        suit: number / HIGHEST_RANK,
        rank: number % HIGHEST_RANK + 1,
    })
}
