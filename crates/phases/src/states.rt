// The four phases as types: plain numbers, moved from call to call. The tables are lent at each call.
ghost use Rattle.std.specs.Prelude.{◌≡◌, true};

use dayfile::opening::Opening;

#[derive(Drop)]
pub struct Open {
    pub(crate) opening: Opening,
}

// Fixed prices, which stand until the day is confirmed or recalled: only those two settle it, and only then may it be let go.
pub struct Fixed {
    pub(crate) opening: Opening,
    pub(crate) settled: bool,
}

impl Drop for Fixed {
    fn drop(self)
        requires { self.settled ≡ true }
    {
        let Fixed {
            opening: _,
            settled: _,
        } = self;
    }
}

// The first `posted` places of the post list count.
#[derive(Drop)]
pub struct Post {
    pub(crate) opening: Opening,
    pub(crate) posted: usize,
}

#[derive(Drop)]
pub struct Final {
    pub(crate) opening: Opening,
    pub(crate) posted: usize,
}
