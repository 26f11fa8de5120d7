/// What a literal is now.
#[derive(Clone, Copy)]
pub enum Value {
    Open,
    True,
    False,
}
