//! Laws of values as JSON, as public calls that do nothing.

ghost use Rattle.std.specs.Prelude.{◌≡◌, ◌↔◌, ℕ, Bool, List, Option, Some};
ghost use Rattle.binlog_cells.specs.Cells.{Cell};
ghost use Rattle.binlog_base.specs.Values.{PlainValue};
ghost use Rattle.binlog_table.specs.TableColumns as table;
ghost use Rattle.json.specs.Json.{Json};
ghost use Rattle.json.specs.Print.{print};
ghost use Rattle.json.specs.Tree.{json_tokens};
ghost use Rattle.mysql_binlog_rows.specs.Images.{BinlogRow, Pair};
ghost use Rattle.mysql_binlog_rows.specs.RowsEvent.{RowsEvent};
ghost use Rattle.row_json.specs.Columns.{Column, Names, column_of};
ghost use Rattle.row_json.specs.Rows.{IsRowJson, IsPairJson, IsLine, operation_of};
ghost use Rattle.row_json.specs.Values.{IsValueJson};
ghost use Rattle.row_json.specs.Shown.{shown, shown_enum, shown_set, AreOfOneColumn, IsCellOf, AreApart, HaveNoCommas};
ghost use Rattle.row_json.specs.ShownRows.{AreCellsOfOneColumn, IsWholeCellOf, ShowTheSame, EachCell, AreRowsOfOneTable, DocumentsHaveNumbers, ArePairsOfOneTable, PairsShowTheSame};
ghost use Rattle.row_json.specs.Wrote.{Named};

/// Different values of a column have different texts, as far as the JSON of a value shows it (`shown`):
/// two values of one column have the same JSON exactly if the same is shown of both (`shows`), and the
/// same text only then (`texts`). Any two cells of a column of a table are values of one column
/// (`cells`).
pub fn json_shows_values()
    ensures shows { (c : Column) (v w : PlainValue) (j : Json) → AreOfOneColumn c v w
        → IsValueJson c v j → IsValueJson c w j ↔ (shown c v ≡ shown c w) }
    ensures texts { (c : Column) (v w : PlainValue) (j k : Json) → AreOfOneColumn c v w
        → IsValueJson c v j → IsValueJson c w k
        → print (json_tokens j) ≡ print (json_tokens k) → shown c v ≡ shown c w }
    ensures cells { (i : ℕ) (names : Names) (c : table.Column) (v w : PlainValue)
        → IsCellOf c v → IsCellOf c w → AreOfOneColumn (column_of i names c) v w }
{}

/// Rows with the same JSON show the same of each cell: two rows of one table with the same columns in
/// their images (`rows`). So do rows whose JSON has the same text (`texts`), if the numbers of their
/// documents are numbers of JSON: a `Writer` writes no other. Any two cells of a column of a table,
/// documents among them and no diffs, are cells of one column (`cells`).
pub fn json_shows_rows()
    ensures rows { (cs : List Column) (present : List Bool) (x y : BinlogRow) (j : Json)
        → AreRowsOfOneTable cs present x y → IsRowJson cs present x j → IsRowJson cs present y j
        → EachCell ShowTheSame cs present x y }
    ensures texts { (cs : List Column) (present : List Bool) (x y : BinlogRow) (j k : Json)
        → AreRowsOfOneTable cs present x y → DocumentsHaveNumbers x → DocumentsHaveNumbers y
        → IsRowJson cs present x j → IsRowJson cs present y k
        → print (json_tokens j) ≡ print (json_tokens k) → EachCell ShowTheSame cs present x y }
    ensures cells { (i : ℕ) (names : Names) (c : table.Column) (x y : Cell)
        → IsWholeCellOf c x → IsWholeCellOf c y
        → AreCellsOfOneColumn (column_of i names c) (Some x) (Some y) }
{}

/// Pairs of rows with the same JSON show the same: two pairs of one table, of events with the same
/// columns in their images (`pairs`). So do pairs with the same line (`lines`). Any two pairs with the
/// same line have the same `op` and the same members of a caller's, whatever their tables (`members`).
pub fn lines_show_pairs()
    ensures pairs { (cs : List Column) (d e : RowsEvent) (a b : List Named) (x y : Pair) (j : Json)
        → ArePairsOfOneTable cs d e x y → IsPairJson cs d a x j → IsPairJson cs e b y j
        → PairsShowTheSame cs d x y }
    ensures lines { (cs : List Column) (d e : RowsEvent) (a b : List Named) (x y : Pair)
        (line : List ℕ) → ArePairsOfOneTable cs d e x y → IsLine cs d a x line → IsLine cs e b y line
        → PairsShowTheSame cs d x y }
    ensures members { (bs cs : List Column) (d e : RowsEvent) (a b : List Named) (x y : Pair)
        (line : List ℕ) → IsLine bs d a x line → IsLine cs e b y line
        → (operation_of x ≡ operation_of y) × (a ≡ b) }
{}

/// Where a name is shown of a value of an ENUM, it tells the value's number, if no name is empty and no
/// two are the same. The names that are shown of a SET tell its bits, if no name has a comma either.
pub fn names_tell_numbers()
    ensures enums { (names : List (Option (List ℕ))) → AreApart names
        → (m n : ℕ) → shown_enum names m ≡ shown_enum names n → m ≡ n }
    ensures sets { (names : List (Option (List ℕ))) → AreApart names → HaveNoCommas names
        → (m n : ℕ) → shown_set names m ≡ shown_set names n → m ≡ n }
{}
