use crate::list::List;
use crate::state::State;
use crate::text::Text;

/// What the files and the core need to know of a program: its types, in the order of the text, at most 64.
#[derive(Drop)]
pub struct Shape {
    pub types: List<TypeShape>,
}

/// One type: its name, its fields' initial values, and each method's number of parameters, in method order.
#[derive(Drop)]
pub struct TypeShape {
    pub name: Text,
    pub initial: State,
    pub params: List<u16>,
}
