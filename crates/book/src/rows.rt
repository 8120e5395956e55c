// A row of the order table: the order that stands there, if one does.
use crate::entries::Entry;

pub type Row = Option<Entry>;
