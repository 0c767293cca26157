/// A script, and the answers that it must get.
#[derive(Drop)]
pub struct Case {
    /// The path of its files, without their endings.
    pub path: String,
    pub script: Vec<u8>,
    pub expected: Vec<u8>,
}
