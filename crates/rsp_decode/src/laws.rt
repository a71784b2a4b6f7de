//! Laws of the instruction table.

ghost use Rattle.std.specs.Prelude.{ℕ, ◌<◌, IsTrue, length, slice_index_or};
ghost use Rattle.rsp_decode.specs.Table.{Row, rows, fits};

/// No word fits two rows of the instruction table.
#[tactic(auto, using(crate::proofs::OneRow::one_row))]
pub fn l1()
    ensures { (w i j : ℕ) (d : Row) → i < j → j < length rows →
        IsTrue (fits w (slice_index_or rows i d)) → IsTrue (fits w (slice_index_or rows j d)) → ⊥ }
{}
