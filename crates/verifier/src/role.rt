// A verifier's role: its tables hold the structure alone.
ghost use Rattle.std.specs.Prelude.{false};
ghost use Rattle.worksheet.specs.Runs.{erase};
ghost use Rattle.builder.specs.Called.{Stays, Made};

use super::Verifier;
use builder::{Builder, Request, Role, Tables};
use refusal::Refusal;
use ring::Ring;
use worksheet::{Counts, Var};

impl<'a, E: Ring> Role<E, Tables<'a, E>> for Verifier {
    ghost structure = { λ t. t };

    ghost lacks = { λ cap t. false };

    ghost values = { λ M R means n t i. R.nought };

    ghost Hands = { λ M x y. Unit {0} };

    ghost Does = { λ M R means was is t t' c p. Made R means false was is t t' (erase c) p };

    ghost Stays = { λ was is t t'. Stays was is t t' };

    ghost Writes = { λ M R means was is t t' x ok. Unit {0} };

    fn is_short(capacity: Counts, tables: &Tables<'a, E>) -> bool {
        tables.are_short(capacity)
    }

    fn call(
        builder: &mut Builder,
        tables: &mut Tables<'a, E>,
        request: &Request<E>,
        _fresh: E,
    ) -> Result<Var<E>, Refusal> {
        builder.call(tables, false, *request)
    }
}
