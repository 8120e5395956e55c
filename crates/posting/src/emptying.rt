// The post list as a table that can be emptied.
ghost use Rattle.posting.specs.Posts.{no_fill};

use crate::fills::Fill;
use book::blanks::Blank;
use curves::sides::Side;

impl Blank for Fill {
    ghost blank = { no_fill };

    fn blank() -> Fill {
        Fill {
            member: 0,
            hour: 0,
            side: Side::Buy,
            volume: 0,
        }
    }
}
