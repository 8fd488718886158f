//! What the equations of a tableau fix. The functions do nothing: each stands for the law that it ensures.
ghost use Rattle.std.specs.Prelude.{◌≡◌, ◌≢◌, ◌<◌, ◌↔◌, ℕ, pos, IsTrue, false};
ghost use Rattle.rational.specs.Fraction.{Fraction, whole, ◌*ℚ◌, neg_ℚ};
ghost use Rattle.tableau.specs.FiniteSums.{sum_below};
ghost use Rattle.tableau.specs.Table.{Table, width, cell, is_basic, Solves, IsTidy};

/// Non-basic variables may have any values, and these make a solution.
pub fn non_basic_values_are_free()
    ensures { (t : Table) (value : ℕ → Fraction) → IsTidy t → (point : ℕ → Fraction) × Solves t point × ((j : ℕ) → j < width t → is_basic t j ≡ false → point j ≡ value j) }
{}

/// Solutions that agree on the non-basic variables agree on all: the equations of a basis determine the basic values.
pub fn basis_determines_values()
    ensures { (t : Table) (p q : ℕ → Fraction) → IsTidy t → Solves t p → Solves t q → ((j : ℕ) → j < width t → is_basic t j ≡ false → p j ≡ q j) → (i : ℕ) → i < width t → p i ≡ q i }
{}

/// Tableaus with the same solutions and the same basis have the same cells, so a basis names its tableau.
pub fn basis_determines_cells()
    ensures { (t u : Table) → IsTidy t → IsTidy u → width u ≡ width t → ((i : ℕ) → is_basic u i ≡ is_basic t i) → ((point : ℕ → Fraction) → Solves t point ↔ Solves u point)
        → (r j : ℕ) → r < width t → IsTrue (is_basic t r) → j < width t → is_basic t j ≡ false → cell u r j ≡ cell t r j }
{}

/// Where variables, with one basic one r among them, add up to 0 at every solution, each coefficient is the one of r times a
/// cell of its row, turned. So a clash of one row has its coefficients up to a factor.
pub fn one_row_determines_coefficients()
    ensures { (t : Table) → IsTidy t → (g : ℕ → Fraction) → ((point : ℕ → Fraction) → Solves t point → sum_below (width t) (λ i. g i *ℚ point i) ≡ whole (pos 0))
        → (r : ℕ) → r < width t → IsTrue (is_basic t r) → ((i : ℕ) → IsTrue (is_basic t i) → i ≢ r → g i ≡ whole (pos 0))
        → (j : ℕ) → j < width t → is_basic t j ≡ false → g j ≡ neg_ℚ (g r *ℚ cell t r j) }
{}
