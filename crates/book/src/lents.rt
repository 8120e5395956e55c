// The rows of a lent table, at most 256.
ghost use Rattle.std.specs.Prelude.{◌≡◌, ◌≤◌, length};
ghost use Rattle.faults.specs.Answers.{viewed};
ghost use Rattle.book.specs.Shown.{lent_answer};

use crate::rows::Row;
use crate::sides::Rows;
use faults::fault::{Fault, Refusal};

#[derive(Clone, Copy)]
pub struct Lent<'a> {
    pub(crate) rows: &'a [Row],
    ghost few: { length rows.now ≤ 256 },
}

impl<'a> Lent<'a> {
    // Refused where there are more than 256 rows.
    pub fn new(rows: &'a [Row]) -> Result<Lent<'a>, Fault>
        ensures { viewed (λ t. t.rows.now) result ≡ lent_answer rows.now }
    {
        if rows.len() > 256 {
            return Err(Refusal::WrongLength.without_text());
        }
        Ok(Lent { rows })
    }
}

impl<'a> Rows for Lent<'a> {
    ghost listed = { λ s. record { rows = s.rows.now; few = s.few } };

    fn rows(&self) -> &[Row] {
        self.rows
    }
}
