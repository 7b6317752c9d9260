//! A few bytes that lie in the value itself.

ghost use Rattle.std.specs.Prelude.{◌≡◌, ◌-◌, ◌≤◌, ◌++◌, length, replicate, Some, nat_eq, refl};
ghost use Rattle.std.specs.Ordering.{nat_cmp};
ghost use Rattle.std.specs.Cmp.{partial_equiv_from_equiv};
ghost use Rattle.std.specs.Cmp.Lexicographic.{pointwise, slice_cmp, nat_list_eq_equiv, nat_list_cmp_total, texts_po, texts_ties};

use std::cmp::Ordering;
use std::marker::Model;

/// At most `N` bytes, and no more than 255. The order is that of the bytes.
#[derive(Clone, Copy)]
pub(crate) struct Short<const N: usize> {
    cells: [u8; N],
    len: u8,
}

impl<const N: usize> Model for Short<N> {
    ghost use Rattle.std.specs.Prelude.{◌≡◌, ◌-◌, ◌≤◌, ◌++◌, length, take, drop, replicate, List, ℕ};

    ghost Value = { List ℕ };

    ghost view = { λ s. take s.len s.cells };

    // Spare cells are zeros, so that equal bytes are equal values.
    ghost invariant = { λ s. (s.len ≤ N) × (length s.cells ≡ N) × (drop s.len s.cells ≡ replicate (N - s.len) 0) };

    ghost inverse = { λ t. record { cells = t ++ replicate (N - length t) 0; len = length t } };

    ghost use Rattle.std.proofs.Common.{arith, ◌≡◌, take-append-drop, length-take-le};

    ghost inverse_ok = { λ s h i.
        let long : length (take s.len s.cells) ≡ s.len = length-take-le s.len s.cells (Prim.omega (arith, h.0, h.1)) in
        let same : take s.len s.cells ++ replicate (N - length (take s.len s.cells)) 0 ≡ s.cells = Prim.rw (long, ← h.2) (take-append-drop s.len s.cells) in
        record { cells = same i; len = long i } };
}

// The bytes, and then zeros.
fn filled<const N: usize>(bytes: &[u8]) -> [u8; N]
    requires { length bytes.now ≤ N }
    ensures { result ≡ bytes.now ++ replicate (N - length bytes.now) 0 }
{
    let mut cells = [0; N];
    cells[..bytes.len()].copy_from_slice(bytes);
    cells
}

impl<const N: usize> Short<N> {
    /// The value of these bytes.
    pub(crate) fn of(bytes: &[u8]) -> Self
        requires fit { length bytes.now ≤ N }
        requires few { N ≤ 255 }
        ensures { result ≡ bytes.now }
    {
        Short {
            cells: filled(bytes),
            len: bytes.len() as u8,
        }
    }

    /// The bytes.
    pub(crate) fn bytes(&self) -> &[u8]
        ensures { result.now ≡ self.now }
    {
        &self.cells[..self.len as usize]
    }
}

impl<const N: usize> PartialEq for Short<N> {
    ghost eq = { λ s t. pointwise nat_eq s t };

    ghost laws = { partial_equiv_from_equiv nat_list_eq_equiv };

    fn eq(&self, other: &Self) -> bool {
        self.bytes() == other.bytes()
    }
}

impl<const N: usize> Eq for Short<N> {
    ghost laws = { nat_list_eq_equiv };
}

impl<const N: usize> PartialOrd for Short<N> {
    ghost partial_cmp = { λ s t. Some (slice_cmp nat_cmp s t) };

    ghost laws = { texts_po };

    fn partial_cmp(&self, other: &Self) -> Option<Ordering> {
        Some(self.cmp(other))
    }
}

impl<const N: usize> Ord for Short<N> {
    ghost cmp = { slice_cmp nat_cmp };

    ghost total = { nat_list_cmp_total };

    ghost matches_partial_cmp = { λ s t. refl };

    ghost matches_eq = { texts_ties };

    fn cmp(&self, other: &Self) -> Ordering {
        self.bytes().cmp(other.bytes())
    }
}
