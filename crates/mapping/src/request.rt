// What a map asks for.
// At an index of the table at a block, the target with these rights and the memory kind of this number.
#[derive(Clone, Copy)]
pub struct Request {
    pub block: u32,
    pub index: u32,
    pub target: u32,
    pub rights: u32,
    pub kind: u32,
}

// The number of the kind where a map names none (map kind).
pub const FIRST_KIND: u32 = 0;
