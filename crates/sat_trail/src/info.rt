/// The level of a variable that has a value, and the place of the clause that gave it, if one did.
#[derive(Clone, Copy)]
pub struct Info {
    pub level: u32,
    pub reason: Option<u32>,
}
