// A prover's role: what a call appends, it also works out.
ghost use Rattle.std.specs.Prelude.{◌≡◌};
ghost use Rattle.worksheet.specs.Runs.{values_of};
ghost use Rattle.prover.specs.Book.{held, lacks, worksheet_in};
ghost use Rattle.prover.specs.Called.{Stays, Made, Written};

use super::{Ledger, Prover};
use builder::{Builder, Request, Role};
use refusal::Refusal;
use ring::Ring;
use worksheet::{Counts, Var};

impl<'a, E: Ring> Role<E, Ledger<'a, E>> for Prover {
    ghost structure = { λ t. t.tables };

    ghost lacks = { λ cap t. lacks cap (held t) };

    ghost values = { λ M R means o t. values_of R (worksheet_in means o.counts (held t)) };

    ghost Hands = { λ M x y. x ≡ y };

    ghost Does = { λ M R means was is t t' c p. Made R means was is t t' c p };

    ghost Stays = { λ was is t t'. Stays was is t t' };

    ghost Writes = { λ M R means was is t t' x ok. Written R means was is t t' x ok };

    fn is_short(capacity: Counts, ledger: &Ledger<'a, E>) -> bool {
        ledger.lacks(capacity) || ledger.tables.are_short(capacity)
    }

    fn call(
        builder: &mut Builder,
        ledger: &mut Ledger<'a, E>,
        request: &Request<E>,
        fresh: E,
    ) -> Result<Var<E>, Refusal> {
        let lacking = ledger.lacks(builder.capacity());
        let before = builder.counts();
        let answer = builder.call(&mut ledger.tables, lacking, *request)?;
        let after = builder.counts();
        ledger.fill(before, after, fresh);
        Ok(answer)
    }
}
