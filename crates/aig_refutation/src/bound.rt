//! How many variables the steps of a proof may name.

ghost use Rattle.std.specs.Prelude.{◌≡◌, ◌≤◌, ◌^◌};
ghost use Rattle.aig_refutation.specs.Proofs.{allowed, widened};

/// How many variables the first step may name beside those of the clauses.
const FREE_VARIABLES: usize = 1 << 16;

/// How many variables literals of 32 bits can name.
const MOST_VARIABLES: usize = 1 << 31;

/// How many variables the first step may name, where the clauses have so many.
pub(crate) fn allowed(variables: usize) -> usize
    requires { variables ≤ 2 ^ 31 }
    ensures allowed { result ≡ allowed variables }
    ensures most { result ≤ 2 ^ 31 }
{
    (variables + FREE_VARIABLES).min(MOST_VARIABLES)
}

/// How many variables the step after one may name that may name so many.
pub(crate) fn widened(variables: usize) -> usize
    requires { variables ≤ 2 ^ 31 }
    ensures widened { result ≡ widened variables }
    ensures most { result ≤ 2 ^ 31 }
{
    (variables + 1).min(MOST_VARIABLES)
}
