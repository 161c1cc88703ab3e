//! Keys that count how often they are compared.
ghost use Rattle.std.specs.Prelude.{ℕ};
ghost use Rattle.std.proofs.Common.{rules};
ghost use Rattle.std.specs.Ordering.{nat_cmp, on, eq_by_cmp, as_partial_cmp};
ghost use Rattle.std.specs.Cmp.{nat_cmp_total, partial_order_from_own_ties};
ghost use Rattle.std.specs.Cmp.Rules.{comparing};

use bac_slots::Same;
use std::cell::Cell;
use std::cmp::Ordering;

// A key that counts each comparison of it.
#[derive(Clone, Copy)]
pub(super) struct CountedKey<'a> {
    pub(super) number: u32,
    comparisons: &'a Cell<u64>,
}

// The key of that number.
pub(super) fn counted(number: u32, comparisons: &Cell<u64>) -> CountedKey<'_> {
    CountedKey {
        number,
        comparisons,
    }
}

impl Ord for CountedKey<'_> {
    ghost cmp = { on (λ k. k.number) nat_cmp };

    ghost total = { Prim.search (nat_cmp_total, comparing, rules) };

    ghost matches_partial_cmp = { Prim.search (nat_cmp_total, comparing, rules) };

    ghost matches_eq = { Prim.search (nat_cmp_total, comparing, rules) };

    fn cmp(&self, other: &Self) -> Ordering {
        self.comparisons
            .set(self.comparisons.get().saturating_add(1));
        self.number.cmp(&other.number)
    }
}

impl PartialOrd for CountedKey<'_> {
    ghost partial_cmp = { as_partial_cmp (on (λ k. k.number) nat_cmp) };

    ghost laws = { partial_order_from_own_ties (Prim.search (nat_cmp_total, comparing, rules)) (Prim.search (nat_cmp_total, comparing, rules)) };

    fn partial_cmp(&self, other: &Self) -> Option<Ordering> {
        Some(self.cmp(other))
    }
}

impl PartialEq for CountedKey<'_> {
    ghost eq = { on (λ k. k.number) (eq_by_cmp nat_cmp) };

    ghost laws = { Prim.search (nat_cmp_total, comparing, rules) };

    fn eq(&self, other: &Self) -> bool {
        self.cmp(other) == Ordering::Equal
    }
}

impl Eq for CountedKey<'_> {
    ghost laws = { Prim.search (nat_cmp_total, comparing, rules) };
}

impl Same for CountedKey<'_> {
    ghost Seen = { ℕ };

    ghost seen = { λ k. k.number };

    fn same(&self, other: &Self) -> bool {
        self.number == other.number
    }
}
