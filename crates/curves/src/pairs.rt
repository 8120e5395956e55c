// A tick and a volume, each in its range: plain numbers, as texts and definitions have them.
ghost use Rattle.std.specs.Prelude.{◌≤◌};

#[derive(Clone, Copy, PartialEq, Eq, Debug)]
pub struct Pair {
    pub tick: u32,
    pub volume: u32,
    ghost low: { 1 ≤ tick },
    ghost high: { tick ≤ 300000 },
    ghost some: { 1 ≤ volume },
    ghost few: { volume ≤ 100000 },
}
