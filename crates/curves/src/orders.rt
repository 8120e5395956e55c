// An order of any form.
use crate::lines::Linear;
use crate::markets::Market;
use crate::steps::Step;

#[derive(Clone, Copy, Debug)]
pub enum Order {
    Market(Market),
    Step(Step),
    Linear(Linear),
}
