// A row with its cost.
use crate::row::Row;

#[derive(Clone, Copy, PartialEq, Eq, Debug)]
pub struct Priced {
    pub row: Row,
    pub cost: u32,
}
