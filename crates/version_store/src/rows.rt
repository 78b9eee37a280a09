ghost use Rattle.std.specs.Prelude.{◌≡◌};
ghost use Rattle.version_rule.specs.Opening.{first_rows};

use cell_words::{Field, Row};

/// The kinds of the first rows.
const RECORD: Field = Field::Num(1);

const BOXED: Field = Field::Num(2);

/// The first rows of a store: the anchor, version 0, and the root of the empty tree.
pub fn opening_rows() -> [Row; 3]
    ensures rows { result ≡ first_rows }
{
    let null = Field::Null;
    let anchor = [Field::Cell(1), null, null, null, null, BOXED];
    let version = [Field::Num(0), Field::Cell(2), null, null, null, BOXED];
    let root = [null, null, Field::Num(1), Field::Num(0), null, RECORD];
    [anchor, version, root]
}
