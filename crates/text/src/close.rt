// What ends an item.
ghost use Rattle.std.specs.Prelude.{◌≡◌};
ghost use Rattle.text.specs.Closing.{close_byte};

#[derive(Clone, Copy, PartialEq, Eq, Debug)]
pub enum Close {
    Space,
    Line,
}

// The byte that stands there.
impl From<Close> for u8 {
    ghost from_gives = { λ end b. b ≡ close_byte end };

    fn from(end: Close) -> u8 {
        match end {
            Close::Space => b' ',
            Close::Line => b'\n',
        }
    }
}
