ghost use Rattle.std.specs.Prelude.{◌≡◌};
ghost use Rattle.mail_rule.specs.Opening.{first_rows};

use cell_words::{Field, Row};

/// The kind of the first rows.
const BOXED: Field = Field::Num(2);

/// The first rows of a mailbox: the anchor, and a box before the first item.
pub fn opening_rows() -> [Row; 2]
    ensures rows { result ≡ first_rows }
{
    let null = Field::Null;
    let zero = Field::Num(0);
    let anchor = [Field::Cell(1), null, null, null, null, BOXED];
    let before = [zero, zero, zero, null, null, BOXED];
    [anchor, before]
}
