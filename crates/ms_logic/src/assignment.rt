use ms_list::List;

/// The value of a variable, by its order.
#[derive(Drop)]
pub enum Value {
    Truth(bool),
    Number(u64),
    Set(List<u64>),
}

/// A value for each global, in the order of the globals, and the length of the whole.
#[derive(Drop)]
pub struct Assignment {
    pub length: u64,
    pub values: List<Value>,
}
