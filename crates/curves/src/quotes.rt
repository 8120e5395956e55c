// A tick and a volume as they are asked for: any numbers.
#[derive(Clone, Copy, PartialEq, Eq, Debug)]
pub struct Quote {
    pub tick: u32,
    pub volume: u32,
}
