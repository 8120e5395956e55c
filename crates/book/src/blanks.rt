// Tables that can be emptied.
ghost use Rattle.std.specs.Prelude.{◌≡◌, None, length, replicate};

use crate::rows::Row;

// A place of a table, which holds nothing at first. `Default` would only say that its value is one of the defaults, and the
// contract of `clear` needs the value itself.
pub trait Blank: Copy {
    ghost blank: { Self };

    fn blank() -> Self
        ensures { result ≡ blank };
}

impl Blank for Row {
    ghost blank = { None };

    fn blank() -> Row {
        None
    }
}

// Empties every place. `fill` clones, and a clone is not known to be the value itself.
pub fn clear<T: Blank>(table: &mut [T])
    ensures { table.new ≡ replicate (length table.old) T.Blank.blank }
{
    for place in table {
        *place = T::blank();
    }
}
