/// What a seat has seen and published, and how many parts of the front it has. No value of it is made.
pub struct View {
    pub seen: u64,
    pub published: u64,
    pub parts: u64,
}
