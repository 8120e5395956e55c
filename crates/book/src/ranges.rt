// The ranges of rows, members and products, a function to each definition. The house numbers its products itself (hours 1 to
// 24, blocks from 25), and every definition speaks of these numbers: so a product, or an hour, is a number and no enum.
ghost use Rattle.std.specs.Prelude.{◌≡◌};
ghost use Rattle.book.specs.Shown.{bad_hour};
ghost use Rattle.book.specs.Verdicts.{bad_row, bad_member, bad_product, is_block};

pub fn bad_row(row: usize) -> bool
    ensures { result ≡ bad_row row }
{
    row > 255
}

pub fn bad_member(member: u32) -> bool
    ensures { result ≡ bad_member member }
{
    !(1..=999).contains(&member)
}

pub(crate) fn bad_product(product: u32) -> bool
    ensures { result ≡ bad_product product }
{
    !(1..=38).contains(&product)
}

pub fn bad_hour(hour: u8) -> bool
    ensures { result ≡ bad_hour hour }
{
    !(1..=24).contains(&hour)
}

// Products up to 24 are hours.
pub fn is_block(product: u32) -> bool
    ensures { result ≡ is_block product }
{
    product > 24
}
