//! Laws of names and operands. Each law is the contract of a function that does nothing.

ghost use Rattle.std.specs.Prelude.{◌≡◌, ℕ, ◌<◌, ◌%◌, false, true, ◌||◌, [], length, slice_index_or, codes, Ok};
ghost use Rattle.std.specs.List.{All, list_all};
ghost use Rattle.std.specs.Str.{str_eq_ignore_ascii_case};
ghost use Rattle.rsp_decode.specs.Table.{Operand, Row, rows, is_row_operand};
ghost use Rattle.rsp_syntax.specs.Disassembly.{operand_fields, operand_text, has_text};
ghost use Rattle.rsp_syntax.specs.Statement.{read};
ghost use Rattle.rsp_syntax.specs.OperandResults.{reading_fields};
ghost use Rattle.rsp_dis.specs.NoSeparators.{is_no_separator};

/// Instructions have distinct names, in either case, and none is called `nop` or `.word`.
pub fn names_are_distinct()
    ensures distinct { (i j : ℕ) (d : Row) → i < j → j < length rows →
        str_eq_ignore_ascii_case (slice_index_or rows j d).name (slice_index_or rows i d).name ≡ false }
    ensures free { All (λ (r : Row).
        (str_eq_ignore_ascii_case r.name (codes "nop") || str_eq_ignore_ascii_case r.name (codes ".word")) ≡ false) rows }
{}

/// Operands are read back: for each word at each address in IMEM, the disassembly of an operand is read as the operand's fields in
/// that word, unless it is a branch out of IMEM. No byte of it separates: none is a blank, a comma, a colon, `#` or `;`.
pub fn operands_are_read_back()
    ensures fields { (w address : ℕ) (k : Operand) → address < 4096 → address % 4 ≡ 0 → is_row_operand k ≡ true → has_text w address k ≡ true →
        reading_fields [] address (read k (operand_text w address k)) ≡ Ok (operand_fields k w) }
    ensures bytes { (w address : ℕ) (k : Operand) → address < 4096 → address % 4 ≡ 0 → is_row_operand k ≡ true → has_text w address k ≡ true →
        list_all is_no_separator (operand_text w address k) ≡ true }
{}
