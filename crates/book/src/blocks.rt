// The block products of a day, each a set of hours.
ghost use Rattle.std.specs.Prelude.{◌≡◌, ◌≤◌, true, take};
ghost use Rattle.book.specs.HourSets.{all_hours};

// The first `count` sets count; the rest fill the array, so that a day's blocks are a plain value and are copied (the
// library's `ArrayVec` is not), and equal days need not be equal values.
#[derive(Clone, Copy)]
pub struct Blocks {
    pub(crate) sets: [u32; 14],
    pub(crate) count: usize,
    ghost few: { count ≤ 14 },
    ghost proper: { all_hours (take count sets) ≡ true },
}
